// One line of the calls.
#![tactic(auto)]

ghost use Rattle.std.specs.Prelude.{◌≡◌, option_map};
ghost use Rattle.text.specs.Lines.{fields_in, names_once};
ghost use Rattle.callrows.specs.Calls.{call_names, call_columns, call_named, with_uses, uses_of, number_in, fits, data_if, call_of, as_call_row};

use rules::Call;
use text::Row;
use values::Data;

// The columns of the calls, found in their line of names.
#[derive(Clone, Copy)]
pub struct CallColumns {
    pub call: usize,
    pub caller: usize,
    pub other: usize,
    pub set: usize,
    pub tag: usize,
    pub bytes: usize,
}

// Which fields of a line a call uses, beside the caller: a flag for each column. An enum of the combinations would say no more.
#[derive(Clone, Copy)]
pub struct Uses {
    pub other: bool,
    pub set: bool,
    pub tag: bool,
    pub bytes: bool,
}

// What a line of the calls says: a call, and the bytes put.
#[derive(Clone, Copy)]
pub struct CallRow {
    pub call: Call,
    pub put: Data,
}

// Whether a line is the names of the calls, each once: text::is_header of its names, which stand here beside the columns.
pub fn is_call_header(line: &[u8]) -> bool
    ensures { result ≡ names_once call_names (fields_in line.now) }
{
    text::is_header(line, b"call caller other set tag data")
}

// The columns of the calls in a line of names.
#[tactic(auto, unfolding(crate::specs::Calls::call_columns))]
pub fn call_columns(line: &[u8]) -> CallColumns
    ensures { result ≡ call_columns (fields_in line.now) }
{
    CallColumns {
        call: text::column(line, b"call"),
        caller: text::column(line, b"caller"),
        other: text::column(line, b"other"),
        set: text::column(line, b"set"),
        tag: text::column(line, b"tag"),
        bytes: text::column(line, b"data"),
    }
}

// The call of a name, by a caller, with the other's slot, the set field and the tag as far as it uses them. By `same`,
// name by name, as `rows::kind_named`.
#[tactic(auto, unfolding(crate::specs::Calls::call_named))]
fn call_named(f: &[u8], i: u8, j: u8, n: u8, p: u8) -> Option<Call>
    ensures { result ≡ call_named f.now i j n p }
{
    if text::same(f, b"put") {
        return Some(Call::Put(i));
    }
    if text::same(f, b"show") {
        return Some(Call::Show(i));
    }
    if text::same(f, b"send") {
        return Some(Call::Send(i, j));
    }
    if text::same(f, b"fetch") {
        return Some(Call::Fetch(i, j));
    }
    if text::same(f, b"add") {
        return Some(Call::Add(i, n, p));
    }
    if text::same(f, b"drop") {
        return Some(Call::Drop(i, n, p));
    }
    if text::same(f, b"create") {
        return Some(Call::Create(i, j, n));
    }
    if text::same(f, b"release") {
        return Some(Call::Release(i, j));
    }
    if text::same(f, b"hand") {
        return Some(Call::Hand(i, j, n, p));
    }
    None
}

// The fields by place, so that each call of `uses_of` takes one line, as in the specs.
fn with_uses(other: bool, set: bool, tag: bool, bytes: bool) -> Uses
    ensures { result ≡ with_uses other set tag bytes }
{
    Uses {
        other,
        set,
        tag,
        bytes,
    }
}

// A match on what the call is, in document 01's order of the calls.
fn uses_of(call: Call) -> Uses
    ensures { result ≡ uses_of call }
{
    match call {
        Call::Put(..) => with_uses(false, false, false, true),
        Call::Show(..) => with_uses(false, false, false, false),
        Call::Send(..) => with_uses(true, false, false, false),
        Call::Fetch(..) => with_uses(true, false, false, false),
        Call::Add(..) => with_uses(false, true, true, false),
        Call::Drop(..) => with_uses(false, true, true, false),
        Call::Create(..) => with_uses(true, true, false, false),
        Call::Release(..) => with_uses(true, false, false, false),
        Call::Hand(..) => with_uses(true, true, true, false),
    }
}

// What a field says as a number; 255 where it says none, as `-` does. No Option, which would be undone at each of the nine calls: a
// call holds only the numbers that it uses, and `fits` sees to it that the fields of those are numbers.
fn number(f: &[u8]) -> u8
    ensures { result ≡ number_in f.now }
{
    values::decimal(f, 255).unwrap_or(255)
}

// Whether a field is a number where the call uses it, and `-` where it does not: the flag is its column's in `Uses`.
fn fits(used: bool, f: &[u8]) -> bool
    ensures { result ≡ fits used f.now }
{
    if used {
        values::decimal(f, 255).is_some()
    } else {
        text::same(f, b"-")
    }
}

// Data where the call uses it, and `-` where it does not: the flag is its column's in `Uses`.
#[tactic(auto, unfolding(crate::specs::Calls::data_if, values::specs::Values::data_of))]
fn data_if(used: bool, f: &[u8]) -> Option<Data>
    ensures { option_map (λ d. d.items) result ≡ data_if used f.now }
{
    if used || text::same(f, b"-") {
        values::data_field(f, 255)
    } else {
        None
    }
}

// The call of a line, by its columns.
#[tactic(auto, using(crate::proofs::Laws::row_call))]
pub fn call_row(columns: CallColumns, row: &[u8]) -> Option<CallRow>
    ensures { result ≡ option_map as_call_row (call_of columns (fields_in row.now)) }
{
    let row = Row::split(row);
    if row.count != 6 {
        return None;
    }
    let caller = values::decimal(row.field(columns.caller), 255)?;
    let other = row.field(columns.other);
    let set = row.field(columns.set);
    let tag = row.field(columns.tag);
    let call = call_named(
        row.field(columns.call),
        caller,
        number(other),
        number(set),
        number(tag),
    )?;
    let uses = uses_of(call);
    if !(fits(uses.other, other) && fits(uses.set, set) && fits(uses.tag, tag)) {
        return None;
    }
    let put = data_if(uses.bytes, row.field(columns.bytes))?;
    Some(CallRow { call, put })
}
