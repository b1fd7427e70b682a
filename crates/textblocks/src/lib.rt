// The blocks of a text: where each stands, and the first line that does not have the form.
#![tactic(auto)]

ghost use Rattle.std.specs.Prelude.{◌≡◌, ◌-◌, length, drop};
ghost use Rattle.std.specs.Iterator.{at_most};
ghost use Rattle.std.specs.Option.{option_map, option_or};
ghost use Rattle.text.specs.Lines.{lines_of, fields_in};
ghost use Rattle.textblocks.specs.Blocks.{Inside, Steps, start, past_empty, groups_at, calls_at, names_at, group_columns_in, row_good, is_header, is_last, rows_bad, block_bad, bad_line};
ghost use Rattle.textblocks.specs.CallsIn.{call_columns_in};

use callrows::CallColumns;
use grouprows::GroupColumns;
use rows::EntityColumns;

// A place in a text, and the number of the line there.
#[derive(Clone, Copy)]
pub struct Place {
    pub at: usize,
    pub line: usize,
}

// A block of a text: the columns that its rows have. A match on it picks the reader of a block's rows; a trait would have three instances of
// three functions in place of three matches, which is no plainer.
#[derive(Clone, Copy)]
pub enum Block {
    Entities(EntityColumns),
    Groups(GroupColumns),
    Calls(CallColumns),
}

// A text from the line at a place on. As an iterator it gives the whole lines, each with its number. Contracts say its text and
// its place by an equation each: one of two values would have to say that they hold the same proof of `inside`, too.
#[derive(Clone, Copy)]
pub struct Rest<'a> {
    pub text: &'a [u8],
    pub place: Place,
    ghost inside: { Inside text.now place },
}

impl<'a> Iterator for Rest<'a> {
    type Item = (usize, &'a [u8]);

    ghost next_gives = { λ s r t. (t.text.now ≡ s.text.now) × Steps s.text.now s.place (option_map (λ x. (x.0, x.1.now)) r) t.place };

    ghost remaining = { λ s. at_most (length s.text.now - s.place.at) };

    fn next(&mut self) -> Option<(usize, &'a [u8])> {
        let Place { at, line } = self.place;
        let end = text::line_end(self.text, at);
        if self.text.len() <= end {
            return None;
        }
        self.place = Place {
            at: end + 1,
            line: line + 1,
        };
        Some((line, &self.text[at..end]))
    }
}

impl<'a> Rest<'a> {
    // All of a text.
    pub fn all(text: &'a [u8]) -> Self
        ensures { (result.text.now ≡ text.now) × (result.place ≡ start) }
    {
        Rest {
            text,
            place: Place { at: 0, line: 1 },
        }
    }

    // What is left past the next empty line. No index is counted; a `find` would do the same, with its result thrown away.
    fn past_empty(mut self) -> Self
        ensures { (result.text.now ≡ self.entry.text.now) × (result.place ≡ past_empty self.entry.text.now self.entry.place) }
    {
        while let Some((_, row)) = self.next() {
            if row.is_empty() {
                break;
            }
        }
        self
    }
}

// A text from the line of names of the groups on; from that of the calls it is one empty line further.
pub fn groups(text: &[u8]) -> Rest<'_>
    ensures { (result.text.now ≡ text.now) × (result.place ≡ groups_at text.now) }
{
    Rest::all(text).past_empty()
}

// A text from the line of names of the calls on.
fn calls(text: &[u8]) -> Rest<'_>
    ensures { (result.text.now ≡ text.now) × (result.place ≡ calls_at text.now) }
{
    groups(text).past_empty()
}

// The place of the line of names of the calls.
pub fn calls_at(text: &[u8]) -> usize
    ensures { result ≡ (calls_at text.now).at }
{
    calls(text).place.at
}

// The columns of the groups of a text.
pub fn group_columns_in(text: &[u8]) -> GroupColumns
    ensures { result ≡ group_columns_in text.now }
{
    grouprows::group_columns(text::line_at(text, groups(text).place.at))
}

// The columns of the calls of a text.
pub fn call_columns_in(text: &[u8]) -> CallColumns
    ensures { result ≡ call_columns_in text.now }
{
    callrows::call_columns(text::line_at(text, calls_at(text)))
}

// Whether a row of a block has the form, where i rows of it stand before.
fn row_good(block: Block, i: usize, row: &[u8]) -> bool
    ensures { result ≡ row_good block i row.now }
{
    match block {
        Block::Entities(columns) => rows::entity_row(columns, row).is_some(),
        Block::Groups(columns) => grouprows::group_row(columns, row).is_some() && i < 8,
        Block::Calls(columns) => callrows::call_row(columns, row).is_some(),
    }
}

// Whether a line is the names of a block, each once: of the headers that stand beside the columns in rows, grouprows and callrows.
fn is_header(block: Block, line: &[u8]) -> bool
    ensures { result ≡ is_header block (fields_in line.now) }
{
    match block {
        Block::Entities(_) => rows::is_entity_header(line),
        Block::Groups(_) => grouprows::is_group_header(line),
        Block::Calls(_) => callrows::is_call_header(line),
    }
}

// Whether a block ends with the text, and not with an empty line.
fn is_last(block: Block) -> bool
    ensures { result ≡ is_last block }
{
    matches!(block, Block::Calls(_))
}

// The first bad line of the rows of a block. No index is counted: where the lines run out, the reader's own place
// says at which.
fn rows_bad(mut rows: Rest<'_>, block: Block) -> Option<usize>
    ensures { result ≡ rows_bad block rows.entry.place.line 0 (lines_of (drop rows.entry.place.at rows.entry.text.now)) }
{
    let last = is_last(block);
    let first = rows.place.line;
    while let Some((line, row)) = rows.next() {
        if !last && row.is_empty() {
            return None;
        }
        if !row_good(block, line - first, row) {
            return Some(line);
        }
    }
    if last && rows.text.len() <= rows.place.at {
        None
    } else {
        Some(rows.place.line)
    }
}

// The first bad line of a block: its names, and then its rows.
fn block_bad(mut rows: Rest<'_>, block: Block) -> Option<usize>
    ensures { let text = rows.entry.text.now in let p = rows.entry.place in result ≡ block_bad block (is_header block (names_at text p)) text p }
{
    match rows.next() {
        Some((_, names)) if is_header(block, names) => rows_bad(rows, block),
        Some((line, _)) => Some(line),
        None => Some(rows.place.line),
    }
}

// The first bad line of a text.
pub fn bad_line(text: &[u8]) -> Option<usize>
    ensures { result ≡ bad_line text.now }
{
    let columns = rows::entity_columns(text::line_at(text, 0));
    let entities = block_bad(Rest::all(text), Block::Entities(columns));
    let groups = block_bad(groups(text), Block::Groups(group_columns_in(text)));
    let calls = block_bad(calls(text), Block::Calls(call_columns_in(text)));
    entities.or(groups).or(calls)
}
