// The hub's table as C has it, a struct of numbers: the table of a struct, and the struct of a table.
#![tactic(auto)]

ghost use Rattle.std.specs.Prelude.{◌≡◌, ◌<◌, slice_index_or};
ghost use Rattle.std.specs.List.{AllZip};
ghost use Rattle.layout.specs.Struct.{slot_entity, slot_as, table_of, struct_of};

use entity::Entity;
use label::Label;
use monitor::Table;
use rules::Kind;

// What stands in a slot. The kind is 0 for a free slot, 1 for an item, 2 for a program; a table with another kind lacks the
// form. Kind and labels are C's numbers: a `From` between Label and u64 would stand in a crate below, for C alone.
#[repr(C)]
#[derive(Clone, Copy)]
pub struct HubSlot {
    pub kind: u8,
    pub sec: u64,
    pub int: u64,
    pub sa: u64,
    pub sd: u64,
    pub ia: u64,
    pub id: u64,
    pub len: usize,
}

#[repr(C)]
#[derive(Clone, Copy)]
pub struct HubTable {
    pub slots: [HubSlot; 32],
    pub content: [u8; 2048],
    pub groups: [u64; 8],
    pub most: [u8; 8],
    pub count: usize,
}

impl From<HubSlot> for Entity {
    ghost from_gives = { λ s e. e ≡ slot_entity s };

    // The numbers of the kinds are C's. A slot of another kind is no error here: it gets a length that no entity has, so that its
    // table lacks the form.
    fn from(s: HubSlot) -> Entity {
        let (kind, len) = match s.kind {
            0 => (Kind::Free, s.len),
            1 => (Kind::Item, s.len),
            2 => (Kind::Program, s.len),
            _ => (Kind::Free, 65),
        };
        Entity {
            kind,
            sec: Label { bits: s.sec },
            int: Label { bits: s.int },
            sa: Label { bits: s.sa },
            sd: Label { bits: s.sd },
            ia: Label { bits: s.ia },
            id: Label { bits: s.id },
            len,
        }
    }
}

impl From<Entity> for HubSlot {
    ghost from_gives = { λ e s. s ≡ slot_as e };

    fn from(e: Entity) -> HubSlot {
        HubSlot {
            kind: e.kind as u8,
            sec: e.sec.bits,
            int: e.int.bits,
            sa: e.sa.bits,
            sd: e.sd.bits,
            ia: e.ia.bits,
            id: e.id.bits,
            len: e.len,
        }
    }
}

// What a function gives of each element of an array goes to another, in place. By index: no clause says what `zip` over
// `iter_mut` leaves in the array (tried).
fn fill<A: Copy, B: Copy, F: Fn(A) -> B, const N: usize>(xs: &[A; N], f: F, out: &mut [B; N])
    requires { F.IsAlwaysCallable f }
    ensures { AllZip (λ x y. F.post f x y) xs.now out.new }
{
    for i in 0..N {
        out[i] = f(xs[i]);
    }
}

// The table that a struct stands for goes to a table, in place.
pub fn read_table(t: &HubTable, table: &mut Table)
    ensures { table.new ≡ table_of t.now }
{
    fill(&t.slots, Entity::from, &mut table.entities);
    table.content = t.content;
    fill(&t.groups, |bits| Label { bits }, &mut table.groups);
    table.most = t.most;
    table.count = t.count;
}

// The struct that stands for a table goes to a struct, in place.
pub fn write_table(table: &Table, out: &mut HubTable)
    ensures { out.new ≡ struct_of table.now }
{
    fill(&table.entities, HubSlot::from, &mut out.slots);
    out.content = table.content;
    fill(&table.groups, |l| l.bits, &mut out.groups);
    out.most = table.most;
    out.count = table.count;
}

// The table that a struct stands for.
pub fn table_of(t: &HubTable) -> Table
    ensures { result ≡ table_of t.now }
{
    let mut table = Table::empty();
    read_table(t, &mut table);
    table
}

// The struct that stands for a table.
pub fn struct_of(table: &Table) -> HubTable
    ensures { result ≡ struct_of table.now }
{
    let mut out = HubTable {
        slots: [HubSlot::from(entity::free_entity()); 32],
        content: [0u8; 2048],
        groups: [0u64; 8],
        most: [1u8; 8],
        count: 0,
    };
    write_table(table, &mut out);
    out
}
