// What hubtally prints: the page of a tally, a line of names and a line for each row; and of an input, tallied.
#![tactic(auto)]

ghost use Rattle.std.specs.Prelude.{◌≡◌, ◌⊎◌, ◌*◌, ◌≤◌, length, true, IfOk, IfSome, OnErr};
ghost use Rattle.std.specs.List.{flat_map};
ghost use Rattle.stdio.specs.Input.{reader_of, has_failed};
ghost use Rattle.print.specs.Lines.{line_with};
ghost use Rattle.tally.specs.Tally.{tally_of};
ghost use Rattle.page.specs.Page.{caller_text, cell, row_line, row_size, page_size, page_of, page_or_refusal, page_output, IsTooLong};

use bounded::ByteVec;
use records::SIZE;
use rules::Refusal;
use std::io;
use std::io::{ErrorKind, Read};
use stdio::Input;
use tally::{CALLERS, Row, Tally};

// A page: the names take 80 bytes, and a row at most 425, a word of 4, a space and 20 digits for each of 20 numbers, and byte 10.
pub type Page = ByteVec<14105>;

// A number behind a space.
#[tactic(auto, using(crate::proofs::Pages::cell_short))]
fn push_cell(page: &mut Page, n: u64)
    ensures short { length (cell n) ≤ 21 }
    ensures text { page.new.items ≡ line_with page_size page.old.items (cell n) }
{
    print::push_bytes(page, b" ");
    print::push_decimal(page, n);
}

// Numbers, each behind a space.
#[tactic(auto, using(crate::proofs::Pages::cells_more, crate::proofs::Pages::cells_all, crate::proofs::Pages::cells_short))]
fn push_cells(page: &mut Page, numbers: &[u64])
    ensures short { length (flat_map cell numbers.now) ≤ length numbers.now * 21 }
    ensures text { page.new.items ≡ line_with page_size page.old.items (flat_map cell numbers.now) }
{
    for n in numbers {
        push_cell(page, *n);
    }
}

// What stands for a row: a caller's slot, or all higher numbers.
#[tactic(auto, using(crate::proofs::Pages::caller_short))]
fn push_caller(page: &mut Page, caller: usize)
    ensures short { length (caller_text caller) ≤ 4 }
    ensures text { page.new.items ≡ line_with page_size page.old.items (caller_text caller) }
{
    if caller < CALLERS {
        print::push_decimal(page, caller as u64);
    } else {
        print::push_bytes(page, b"more");
    }
}

// The line of a row.
#[tactic(auto, using(crate::proofs::Pages::row_of_parts, crate::proofs::Pages::row_short))]
fn push_row(page: &mut Page, caller: usize, row: &Row)
    ensures short { length (row_line caller row.now) ≤ row_size }
    ensures text { page.new.items ≡ line_with page_size page.old.items (row_line caller row.now) }
{
    push_caller(page, caller);
    push_cells(page, &row.counts);
    push_cell(page, row.bytes);
    print::push_bytes(page, b"\n");
}

// The page of a tally.
#[tactic(auto, using(crate::proofs::Pages::all_rows))]
pub fn page_of(tally: &Tally) -> Page
    ensures { result.items ≡ page_of tally.now }
{
    let rows: &[Row] = &tally.rows;
    let mut page = Page::new();
    print::push_bytes(
        &mut page,
        b"caller n0 n1 n2 n3 n4 n5 n6 n7 n8 n9 n10 n11 n12 n13 n14 n15 n16 n17 more bytes\n",
    );
    for (caller, row) in rows.iter().enumerate() {
        push_row(&mut page, caller, row);
    }
    page
}

// What is printed of a tally, or of a refusal.
fn page_or_refusal(tallied: &Result<Tally, Refusal>) -> Page
    ensures { result.items ≡ page_or_refusal tallied.now }
{
    match tallied {
        Ok(tally) => page_of(tally),
        Err(refusal) => {
            let mut page = Page::new();
            print::push_bytes(&mut page, &print::refused_audit(refusal.number()));
            page
        }
    }
}

// How many bytes are read at a time: whole records, so that none stands in two buffers.
const BUFFER: usize = 4096 * SIZE;

// The tally of all that an input gives, a buffer at a time. An error where a read failed.
#[tactic(auto, using(crate::proofs::Input::all_left, crate::proofs::Input::left_none, crate::proofs::Input::left_beyond))]
fn tally_input<R: Read>(input: &mut Input<R>) -> io::Result<Result<Tally, Refusal>>
    ensures tallied { IfOk result (λ tallied. IfSome (R.remaining (reader_of input.old)) (λ list. tallied ≡ tally_of list)) }
    ensures failed { OnErr result ((has_failed input.new ≡ true) ⊎ IsTooLong (R.remaining (reader_of input.old))) }
{
    let mut buf = [0u8; BUFFER];
    let mut tally = Tally::new();
    // A loop has to end, so its turns are counted.
    for _ in 0..u64::MAX {
        let n = input.fill(&mut buf)?;
        let tallied = tally.with_records(handing::front(&buf, n));
        if n < buf.len() {
            return Ok(tallied);
        }
        // A full buffer is not refused.
        let Ok(more) = tallied else {
            return Ok(tallied);
        };
        tally = more;
    }
    Err(io::Error::from(ErrorKind::FileTooLarge))
}

// What hubtally prints for an input: the page of the records that it gives, or the refusal by 12. An error where a read failed.
pub fn output<R: Read>(input: &mut Input<R>) -> io::Result<Page>
    ensures page { IfOk result (λ page. IfSome (R.remaining (reader_of input.old)) (λ list. page.items ≡ page_output list)) }
    ensures failed { OnErr result ((has_failed input.new ≡ true) ⊎ IsTooLong (R.remaining (reader_of input.old))) }
{
    Ok(page_or_refusal(&tally_input(input)?))
}
