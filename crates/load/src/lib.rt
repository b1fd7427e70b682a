// Loading a table from its text: 14 to 17.
#![tactic(auto)]

ghost use Rattle.std.specs.Prelude.{◌≡◌, [], Ok};
ghost use Rattle.rules.specs.declared.Refusal.TheVariants.{BadLine, SlotTwice, EntityBreaksGroup};
ghost use Rattle.monitor.specs.Table.{empty_table, empty_with};
ghost use Rattle.textblocks.specs.Blocks.{lines_at, bad_line};
ghost use Rattle.load.specs.Tables.{groups_from, none_stored, fill, groups_in, stored, entities_on};
ghost use Rattle.load.specs.Load.{verdict_number_by, verdict_line, refuse_at, load_of};

use grouprows::GroupColumns;
use monitor::Table;
use records::Numbered;
use rows::EntityColumns;
use rules::Refusal;
use textblocks::Rest;

// What storing the entities of a text found: the first line whose slot an earlier one names; the first line before it whose
// entity breaks a group.
#[derive(Clone, Copy)]
pub struct Marks {
    pub twice: Option<usize>,
    pub breaks: Option<usize>,
}

// Why a text is refused, and at which line; 0, document 01's number for a text that is refused at none: C and the printed line
// have it.
#[derive(Clone, Copy)]
pub struct Fault<E = Refusal> {
    pub refusal: E,
    pub line: usize,
}

// What loading comes to: the text's table; of a refused text the empty one, by document 01, and so no `Result` of a table.
#[derive(Clone, Copy)]
pub struct Loaded {
    pub verdict: Result<(), Fault>,
    pub table: Table,
}

// The groups of rows go to an empty table, in place. The table counts its groups, in fixed memory; a ninth ends them.
fn group_rows(rows: Rest<'_>, columns: GroupColumns, table: &mut Table)
    requires { table.old ≡ empty_table }
    ensures { table.new ≡ empty_with (groups_from columns [] (lines_at rows.entry.text.now rows.entry.place.at)) }
{
    for (_, row) in rows {
        let Some(group) = grouprows::group_row(columns, row) else {
            break;
        };
        let count = table.count;
        if 8 <= count {
            break;
        }
        table.groups[count] = group.tags;
        table.most[count] = group.most;
        table.count = count + 1;
    }
}

// The groups of a text go to an empty table.
fn groups_in(text: &[u8], table: &mut Table)
    requires { table.old ≡ empty_table }
    ensures { table.new ≡ empty_with (groups_in text.now) }
{
    let columns = textblocks::group_columns_in(text);
    let mut rows = textblocks::groups(text);
    rows.next();
    group_rows(rows, columns, table);
}

// The entities of rows go to a table one after the other, in place.
fn entity_rows(rows: Rest<'_>, columns: EntityColumns, table: &mut Table) -> Marks
    ensures { stored result table.new ≡ fill columns rows.entry.place.line (none_stored table.old) (lines_at rows.entry.text.now rows.entry.place.at) }
{
    let mut breaks = None;
    for (line, row) in rows {
        let Some(said) = rows::entity_row(columns, row) else {
            break;
        };
        if !table.entity(said.slot).is_free() {
            return Marks {
                twice: Some(line),
                breaks,
            };
        }
        if !table.keeps_all(said.entity) {
            breaks = breaks.or(Some(line));
        }
        let block = said.block;
        table.set_slot(said.slot, said.entity, block);
    }
    Marks {
        twice: None,
        breaks,
    }
}

// The entities of a text go to a table.
fn entities_in(text: &[u8], table: &mut Table) -> Marks
    ensures { stored result table.new ≡ entities_on text.now table.old }
{
    let columns = rows::entity_columns(text::line_at(text, 0));
    let mut rows = Rest::all(text);
    rows.next();
    entity_rows(rows, columns, table)
}

// Refused where there is such a line.
#[tactic(auto, unfolding(crate::specs::Load::refuse_at))]
fn refuse_at(refusal: Refusal, line: Option<usize>) -> Result<(), Fault>
    ensures { result ≡ refuse_at refusal line (Ok tt) }
{
    match line {
        Some(line) => Err(Fault { refusal, line }),
        None => Ok(()),
    }
}

// What the checks of a text that is not too long say, in their order.
fn verdict(text: &[u8], marks: Marks) -> Result<(), Fault>
    ensures { result ≡ refuse_at BadLine (bad_line text.now) (refuse_at SlotTwice marks.twice (refuse_at EntityBreaksGroup marks.breaks (Ok tt))) }
{
    refuse_at(Refusal::BadLine, textblocks::bad_line(text))?;
    refuse_at(Refusal::SlotTwice, marks.twice)?;
    refuse_at(Refusal::EntityBreaksGroup, marks.breaks)
}

// Loads a text.
pub fn load(text: &[u8]) -> Loaded
    ensures { result ≡ load_of text.now }
{
    if 65535 < text.len() {
        return Loaded {
            verdict: Err(Fault {
                refusal: Refusal::TextTooLong,
                line: 0,
            }),
            table: Table::empty(),
        };
    }
    let mut table = Table::empty();
    groups_in(text, &mut table);
    let marks = entities_in(text, &mut table);
    match verdict(text, marks) {
        Ok(()) => Loaded {
            verdict: Ok(()),
            table,
        },
        Err(fault) => Loaded {
            verdict: Err(fault),
            table: Table::empty(),
        },
    }
}

// The number that a verdict returns; document 01's 0 where the text is accepted.
pub fn verdict_number<E: Numbered>(v: Result<(), Fault<E>>) -> u8
    ensures { result ≡ verdict_number_by E.number_in v }
{
    records::number_of(v.map_err(|fault| fault.refusal))
}

// The line that a verdict returns; document 01's 0 where the text is accepted.
pub fn verdict_line<E: Drop>(v: Result<(), Fault<E>>) -> usize
    ensures { result ≡ verdict_line v }
{
    match v {
        Ok(()) => 0,
        Err(fault) => fault.line,
    }
}
