// One line of the groups.
#![tactic(auto)]

ghost use Rattle.std.specs.Prelude.{◌≡◌};
ghost use Rattle.text.specs.Lines.{fields_in, names_once};
ghost use Rattle.grouprows.specs.Groups.{numbered_names, is_named, group_columns, fields_needed, number_said, group_of};

use label::Group;
use text::Row;

// The columns of the groups, found in their line of names: that of the tags and, where it has the second name, that of the numbers.
#[derive(Clone, Copy)]
pub struct GroupColumns {
    pub tags: usize,
    pub most: usize,
    pub numbered: bool,
}

// Whether a line is both names, each once.
fn is_numbered(line: &[u8]) -> bool
    ensures { result ≡ names_once numbered_names (fields_in line.now) }
{
    text::is_header(line, b"tags most")
}

// Whether a line is the names of the groups, each once, with the second name or without it.
pub fn is_group_header(line: &[u8]) -> bool
    ensures { result ≡ is_named (fields_in line.now) }
{
    text::is_header(line, b"tags") || is_numbered(line)
}

// The columns of the groups in a line of names.
#[tactic(auto, unfolding(crate::specs::Groups::group_columns))]
pub fn group_columns(line: &[u8]) -> GroupColumns
    ensures { result ≡ group_columns (fields_in line.now) }
{
    GroupColumns {
        tags: text::column(line, b"tags"),
        most: text::column(line, b"most"),
        numbered: is_numbered(line),
    }
}

// The number of a group by its field; 1 where there is no such column.
fn number(numbered: bool, f: &[u8]) -> Option<u8>
    ensures { result ≡ number_said numbered f.now }
{
    if numbered {
        values::decimal(f, 255)
    } else {
        Some(1)
    }
}

// How many fields a row has: one for each name.
fn fields_needed(columns: GroupColumns) -> usize
    ensures { result ≡ fields_needed columns }
{
    if columns.numbered { 2 } else { 1 }
}

// The group of a line, by its columns. One with a number outside 1 to 64 is none.
#[tactic(auto, using(crate::proofs::Laws::row_group))]
pub fn group_row(columns: GroupColumns, row: &[u8]) -> Option<Group>
    ensures { result ≡ group_of columns (fields_in row.now) }
{
    let row = Row::split(row);
    if row.count != fields_needed(columns) {
        return None;
    }
    let group = Group {
        tags: values::hex_set(row.field(columns.tags))?,
        most: number(columns.numbered, row.field(columns.most))?,
    };
    if !label::group_formed(group) {
        return None;
    }
    Some(group)
}
