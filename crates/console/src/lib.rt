// What hubcalls and hubaudit do alike: they read a text from standard input, and say so where it cannot be read or is refused.
#![tactic(auto)]

ghost use Rattle.std.specs.Prelude.{◌≡◌, IfSome};
ghost use Rattle.load.specs.Load.{load_of};

use monitor::Table;
use std::io;
use stdio::Input;

// How a program writes records: in hexadecimal, a line each, or as they are, for another program to read.
#[derive(Clone, Copy)]
pub enum Format {
    Hex,
    Raw,
}

// Writes the line of a refusal. Where another program reads standard output, the line is told, too.
pub fn refuse(rt: &HostRuntime, line: &[u8], format: Format) -> io::Result<()> {
    if let Format::Raw = format {
        stdio::tell(rt, line);
    }
    stdio::write(rt, line)
}

// A text that is not refused, and the table that it loads into.
#[derive(Clone, Copy)]
pub struct Accepted<'a> {
    pub text: &'a [u8],
    pub table: Table,
}

// Reads a text into a buffer, as much of it as the buffer takes. None where there is no text to go on with, which is then said:
// that a read fails is no fact of the logic, so no clause says when.
pub fn read_text<'a>(rt: &HostRuntime, buf: &'a mut [u8], format: Format) -> Option<Accepted<'a>>
    ensures verdict { IfSome result (λ r. (load_of r.text.now).verdict ≡ Ok tt) }
    ensures table { IfSome result (λ r. r.table ≡ (load_of r.text.now).table) }
{
    let Ok(n) = Input::new(rt.stdin()).fill(buf) else {
        stdio::tell_unread(rt);
        return None;
    };
    let text = handing::front(buf, n);
    let loaded = load::load(text);
    if let Err(fault) = loaded.verdict {
        let line = print::refused_line(fault.refusal.number(), fault.line);
        let _said = refuse(rt, &line, format);
        return None;
    }
    Some(Accepted {
        text,
        table: loaded.table,
    })
}
