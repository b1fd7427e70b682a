// The text of a table and its calls: byte strings, lines and fields.
#![tactic(auto)]

ghost use Rattle.std.specs.Prelude.{◌≡◌};
ghost use Rattle.text.specs.Bytes.{eq_bytes, index_of};
ghost use Rattle.text.specs.Lines.{line_end, line_at, next_line, fields_in, column_of, names_once};
ghost use Rattle.text.specs.Split.{no_starts, split_of, field_by};

// Whether two byte strings are the same: `==`, under the name that contracts have for it, eq_bytes.
pub fn same(a: &[u8], b: &[u8]) -> bool
    ensures { result ≡ eq_bytes a.now b.now }
{
    a == b
}

// The index of the first b, or the length where there is none: a line ends where the text ends, too, so the length is no
// stand-in for nothing.
pub fn index_of(s: &[u8], b: u8) -> usize
    ensures { result ≡ index_of b s.now }
{
    s.iter().position(|x| *x == b).unwrap_or(s.len())
}

// The column of a name in a line of names; how many there are, where it is not among them. No Option, which would be undone at
// each use: a line that lacks a name is no header, and its text is refused whatever is read in that column.
pub fn column(line: &[u8], name: &[u8]) -> usize
    ensures { result ≡ column_of name.now (fields_in line.now) }
{
    line.split(|b| *b == 32).take_while(|h| *h != name).count()
}

// A row, split into its fields: where the first 15 start, and where one more would, in fixed room, since nothing allocates; and how
// many there are, which may be more.
#[derive(Clone, Copy)]
pub struct Row<'a> {
    pub bytes: &'a [u8],
    pub starts: [usize; 16],
    pub count: usize,
}

impl<'a> Row<'a> {
    // The fields are counted beside the iterator: a row answers how many it has.
    pub fn split(bytes: &'a [u8]) -> Row<'a>
        ensures same_bytes { result.bytes.now ≡ bytes.now }
        ensures fields { record { starts = result.starts; count = result.count } ≡ split_of bytes.now }
    {
        let mut starts = [0; 16];
        let mut count = 0;
        let mut next = 0;
        for field in bytes.split(|b| *b == 32) {
            next += field.len() + 1;
            count += 1;
            if count < 16 {
                starts[count] = next;
            }
        }
        Row {
            bytes,
            starts,
            count,
        }
    }

    // The field in a column: one of the first 15; nothing in any other. No Option, as in `column`: what a column reads that a row
    // does not have is never used.
    pub fn field(&self, k: usize) -> &'a [u8]
        ensures { result.now ≡ field_by self.now.bytes.now self.now.starts k }
    {
        if 15 <= k {
            return &self.bytes[..0];
        }
        let a = self.starts[k];
        let b = self.starts[k + 1];
        if b <= a {
            return &self.bytes[..0];
        }
        if self.bytes.len() <= a {
            return &self.bytes[..0];
        }
        if self.bytes.len() < b {
            return &self.bytes[a..];
        }
        &self.bytes[a..b - 1]
    }
}

// Whether a line of names has as many columns as there are names, with a space between them, and one for each.
pub fn is_header(line: &[u8], names: &[u8]) -> bool
    ensures { result ≡ names_once (fields_in names.now) (fields_in line.now) }
{
    let columns = line.split(|b| *b == 32).count();
    if columns != names.split(|b| *b == 32).count() {
        return false;
    }
    names
        .split(|b| *b == 32)
        .all(|name| column(line, name) < columns)
}

// A text and a place in it are two parameters in the three functions below: `Rest` of textblocks, the struct of both, also has the
// line's number, which is not known of any place.

// The place of the byte 10 that ends the line at a place; the text's end, or a place beyond it, where none is left: a line ends
// there, too.
pub fn line_end(text: &[u8], at: usize) -> usize
    ensures { result ≡ line_end text.now at }
{
    if text.len() <= at {
        return at;
    }
    at + index_of(&text[at..], 10)
}

// The line at a place.
pub fn line_at<'a>(text: &'a [u8], at: usize) -> &'a [u8]
    ensures { result.now ≡ line_at text.now at }
{
    if text.len() <= at {
        return &text[..0];
    }
    let end = line_end(text, at);
    &text[at..end]
}

// The place of the line after the one at a place; the text's end, or a place beyond it, where there is none.
pub fn next_line(text: &[u8], at: usize) -> usize
    ensures { result ≡ next_line text.now at }
{
    let end = line_end(text, at);
    if end < text.len() {
        return end + 1;
    }
    end
}
