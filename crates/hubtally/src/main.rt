// Reads records from standard input, 16 bytes each, and prints the page of their tally; `refused 12` where the input is no whole
// number of records.
#![tactic(auto)]

use stdio::Input;

fn main(rt: HostRuntime) {
    if stdio::has_argument(&rt, 1) {
        stdio::tell(&rt, b"usage: hubtally <RECORDS\n");
        return;
    }
    let Ok(page) = page::output(&mut Input::new(rt.stdin())) else {
        stdio::tell_unread(&rt);
        return;
    };
    // A failed write was told: nothing is left to do.
    let _ = stdio::write(&rt, &page);
}
