// One line of the entities.
#![tactic(auto)]

ghost use Rattle.std.specs.Prelude.{◌≡◌, option_map};
ghost use Rattle.text.specs.Lines.{fields_in, names_once};
ghost use Rattle.rows.specs.Names.{entity_names};
ghost use Rattle.rows.specs.Entities.{entity_columns, kind_named, entity_formed, entity_of, as_entity_row};

use entity::Entity;
use label::Label;
use rules::Kind;
use text::Row;

// The columns of the entities, found in their line of names.
#[derive(Clone, Copy)]
pub struct EntityColumns {
    pub slot: usize,
    pub kind: usize,
    pub sec: usize,
    pub int: usize,
    pub sa: usize,
    pub sd: usize,
    pub ia: usize,
    pub id: usize,
    pub content: usize,
}

// What a line of the entities says: a slot, the entity in it, and its content as the block that a table stores, of which the
// entity has the length.
#[derive(Clone, Copy)]
pub struct EntityRow {
    pub slot: u8,
    pub entity: Entity,
    pub block: [u8; 64],
}

// Whether a line is the names of the entities, each once. Here, in grouprows and in callrows the names stand beside the columns.
pub fn is_entity_header(line: &[u8]) -> bool
    ensures { result ≡ names_once entity_names (fields_in line.now) }
{
    text::is_header(line, b"slot kind sec int sa sd ia id data")
}

// The columns of the entities in a line of names.
#[tactic(auto, unfolding(crate::specs::Entities::entity_columns))]
pub fn entity_columns(line: &[u8]) -> EntityColumns
    ensures { result ≡ entity_columns (fields_in line.now) }
{
    EntityColumns {
        slot: text::column(line, b"slot"),
        kind: text::column(line, b"kind"),
        sec: text::column(line, b"sec"),
        int: text::column(line, b"int"),
        sa: text::column(line, b"sa"),
        sd: text::column(line, b"sd"),
        ia: text::column(line, b"ia"),
        id: text::column(line, b"id"),
        content: text::column(line, b"data"),
    }
}

// By `same`, name by name: a match on the bytes leaves a goal open at each byte of a name (tried).
#[tactic(auto, unfolding(crate::specs::Entities::kind_named))]
fn kind_named(f: &[u8]) -> Option<Kind>
    ensures { result ≡ kind_named f.now }
{
    if text::same(f, b"item") {
        return Some(Kind::Item);
    }
    if text::same(f, b"prog") {
        return Some(Kind::Program);
    }
    None
}

#[tactic(auto, unfolding(crate::specs::Entities::entity_formed))]
fn entity_formed(e: Entity) -> bool
    ensures { result ≡ entity_formed e }
{
    !e.is_free() && e.is_formed()
}

// The entity of a line, by its columns.
#[tactic(auto, using(crate::proofs::Laws::row_entity))]
pub fn entity_row(columns: EntityColumns, row: &[u8]) -> Option<EntityRow>
    ensures { result ≡ option_map as_entity_row (entity_of columns (fields_in row.now)) }
{
    let row = Row::split(row);
    if row.count != 9 {
        return None;
    }
    let slot = values::decimal(row.field(columns.slot), 31)?;
    let content = values::data_field(row.field(columns.content), 64)?;
    let entity = Entity {
        kind: kind_named(row.field(columns.kind))?,
        sec: values::hex_set(row.field(columns.sec))?,
        int: values::hex_set(row.field(columns.int))?,
        sa: values::hex_set(row.field(columns.sa))?,
        sd: values::hex_set(row.field(columns.sd))?,
        ia: values::hex_set(row.field(columns.ia))?,
        id: values::hex_set(row.field(columns.id))?,
        len: content.len(),
    };
    if !entity_formed(entity) {
        return None;
    }
    Some(EntityRow {
        slot,
        entity,
        block: block::pad(&content),
    })
}
