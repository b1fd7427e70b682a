// A round: the calls of a text, played one by one.
#![tactic(auto)]

ghost use Rattle.std.specs.Prelude.{◌≡◌, [], length, take};
ghost use Rattle.std.proofs.Math.Nat.{le_of_eq};
ghost use Rattle.rules.specs.Record.{filled};
ghost use Rattle.print.proofs.Laws.{line-most};
ghost use Rattle.chunks.specs.Chunks.{chunk};
ghost use Rattle.round.specs.Played.{Making, lines, entries, IsShort, bytes_shown, performed, played};
ghost use Rattle.round.specs.Round.{first_at, call_pieces, as_calls_chunk};

use callrows::CallRow;
use chunks::Chunk;
use monitor::Table;
use print::Line;
use rules::Call;

// What is made of the calls.
pub trait Made {
    ghost making: { Making };

    // How many bytes are made of a call at most.
    fn most() -> usize
        ensures { result ≡ making.most };

    // What is made of a call: of its record, and of the bytes shown. Where these are at most 64 nothing is cut, by the law `short`.
    fn line(entry: [u8; records::SIZE], shown: &[u8]) -> Line
        ensures { result.items ≡ take making.most (making.made entry shown.now) };

    ghost short: { IsShort making };
}

// A printed line of each.
#[derive(Clone, Copy)]
pub struct Lines;

impl Made for Lines {
    ghost making = { lines };

    ghost short = { line-most };

    fn most() -> usize {
        162
    }

    fn line(entry: [u8; records::SIZE], shown: &[u8]) -> Line {
        print::call_line(entry, shown)
    }
}

// The record of each.
#[derive(Clone, Copy)]
pub struct Entries;

impl Made for Entries {
    ghost making = { entries };

    ghost short = { λ entry shown e h. le_of_eq e };

    fn most() -> usize {
        records::SIZE
    }

    fn line(entry: [u8; records::SIZE], _shown: &[u8]) -> Line {
        print::line_of(&entry)
    }
}

// How many bytes a call shows, of those that it moves.
fn bytes_shown(call: Call, moved: u8) -> usize
    ensures { result ≡ bytes_shown call moved }
{
    match call {
        Call::Show(_) => usize::from(moved),
        _ => 0,
    }
}

// Plays a call with the bytes put, and answers what is made of it.
fn performed<M: Made>(table: &mut Table, call: Call, put: &[u8]) -> Line
    ensures line { result.items ≡ (performed M.making table.old call put.now).0 }
    ensures after { table.new ≡ (performed M.making table.old call put.now).1 }
{
    let mut buffer = [0u8; 64];
    let answer = table.play(call, put, &mut buffer);
    let entry = answer.entry;
    M::line(entry, handing::front(&buffer, bytes_shown(call, entry[4])))
}

// Plays the call of a row; of one that is none nothing is made, and the table stays as it is.
fn play<M: Made>(table: &mut Table, row: Option<CallRow>) -> Line
    ensures line { result.items ≡ (played M.making table.old row).0 }
    ensures after { table.new ≡ (played M.making table.old row).1 }
{
    match row {
        Some(row) => performed::<M>(table, row.call, &row.put),
        None => Line::new(),
    }
}

// Where the first line of a text's calls stands.
pub fn first_at(text: &[u8]) -> usize
    ensures { result ≡ first_at text.now }
{
    text::next_line(text, textblocks::calls_at(text))
}

// Plays the calls of a text from a place on, on a table, in place. What is made of them goes to the front of a lent buffer, as
// long as the most that can be made of a row has room there. All were played where the place it answers is the text's end.
pub fn play_calls<M: Made>(text: &[u8], from: usize, table: &mut Table, out: &mut [u8]) -> Chunk
    ensures value { result ≡ as_calls_chunk (chunk (call_pieces text.now M.making) (length out.old) (from, table.old)) }
    ensures table_after { table.new ≡ (chunk (call_pieces text.now M.making) (length out.old) (from, table.old)).1.1 }
    ensures out_after { out.new ≡ filled (chunk (call_pieces text.now M.making) (length out.old) (from, table.old)).0 out.old }
{
    let columns = textblocks::call_columns_in(text);
    let mut at = from;
    let mut len = 0;
    // Not `Rest` of textblocks: the place may be any, its line's number is not known, and the last line may lack its byte 10.
    while at < text.len() && M::most() <= out.len() - len {
        let row = callrows::call_row(columns, text::line_at(text, at));
        let line = play::<M>(table, row);
        len = chunks::append(&line, out, len).unwrap();
        at = text::next_line(text, at);
    }
    Chunk { at, len }
}
