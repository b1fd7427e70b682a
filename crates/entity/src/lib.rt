// Entities of the hub: what a slot holds but for its content.
#![tactic(auto)]

ghost use Rattle.std.specs.Prelude.{◌≡◌, cond};
ghost use Rattle.rules.specs.Table.{is_free, is_item, is_program, flow, held, parts_formed};
ghost use Rattle.rules.specs.Calls.{new_kind, add_right, drop_right, right_at, grant, relabel, created, with_rights};
ghost use Rattle.label.specs.declared.Label.{Label};
ghost use Rattle.label.specs.Tags.{with_tag, without_tag};
ghost use Rattle.entity.specs.Entity.{free_entity, rights_of, bare, entity_as};

use label::Label;
use rules::Kind;

// What a slot holds but for its content: S, I, the rights to add to and drop from each, and the content's length. The rights
// have the rules' names: places in an array would say less plainly which is which.
#[derive(Clone, Copy)]
pub struct Entity {
    pub kind: Kind,
    pub sec: Label,
    pub int: Label,
    pub sa: Label,
    pub sd: Label,
    pub ia: Label,
    pub id: Label,
    pub len: usize,
}

// What a free slot holds, named for what it is: a `Default` would say it less plainly.
pub fn free_entity() -> Entity
    ensures { result ≡ free_entity }
{
    let none = label::empty();
    Entity {
        kind: Kind::Free,
        sec: none,
        int: none,
        sa: none,
        sd: none,
        ia: none,
        id: none,
        len: 0,
    }
}

// The entity where the test holds, else that of a free slot.
pub fn free_unless(test: bool, e: Entity) -> Entity
    ensures { result ≡ cond test e free_entity }
{
    label::choose(test, e, free_entity())
}

// What create's set field names: 1 an item, 2 a program. It answers every number, and is no `TryFrom`, since a create makes its
// entity before it is known whether the call is allowed.
pub fn new_kind(set: u8) -> Kind
    ensures { result ≡ new_kind set }
{
    if set == 1 { Kind::Item } else { Kind::Program }
}

impl Entity {
    pub fn is_free(self) -> bool
        ensures { result ≡ is_free self.kind }
    {
        self.kind == Kind::Free
    }

    pub fn is_item(self) -> bool
        ensures { result ≡ is_item self.kind }
    {
        self.kind == Kind::Item
    }

    pub fn is_program(self) -> bool
        ensures { result ≡ is_program self.kind }
    {
        self.kind == Kind::Program
    }

    fn no_rights(self) -> bool
        ensures { result ≡ Rattle.rules.specs.Table.rightless (rights_of self) }
    {
        label::is_empty(self.sa)
            & (label::is_empty(self.sd) & (label::is_empty(self.ia) & label::is_empty(self.id)))
    }

    // Whether a slot that holds it has the form: at most 64 bytes, an item without rights, a free slot with nothing.
    pub fn is_formed(self) -> bool
        ensures { result ≡ parts_formed (bare self) self.len }
    {
        match self.kind {
            Kind::Free => (self.len <= 64)
                & ((label::is_empty(self.sec) & label::is_empty(self.int))
                    & (self.no_rights() & (self.len == 0))),
            Kind::Item => (self.len <= 64) & self.no_rights(),
            Kind::Program => self.len <= 64,
        }
    }

    // Whether flow from self to other is allowed.
    pub fn flows_to(self, other: Entity) -> bool
        ensures { result ≡ flow (bare self) (bare other) }
    {
        label::subset(self.sec, other.sec) & label::subset(other.int, self.int)
    }

    // The right to add to the set that a set field names, and to drop from it. Each is one choice of two fields; one function of
    // both would be no plainer.
    pub fn add_right(self, set: u8) -> Label
        ensures { result ≡ add_right set (rights_of self) }
    {
        label::choose(set == 0, self.sa, self.ia)
    }

    pub fn drop_right(self, set: u8) -> Label
        ensures { result ≡ drop_right set (rights_of self) }
    {
        label::choose(set == 0, self.sd, self.id)
    }

    // The right that hand's set field names.
    pub fn right_at(self, set: u8) -> Label
        ensures { result ≡ right_at set (rights_of self) }
    {
        label::choose(
            set == 0,
            self.sa,
            label::choose(set == 1, self.sd, label::choose(set == 2, self.ia, self.id)),
        )
    }

    // The entity with one right more.
    pub fn with_right(self, set: u8, tag: u8) -> Entity
        ensures { result ≡ entity_as (with_rights (bare self) (grant set tag (rights_of self))) self.len }
    {
        let more = |n: u8, right: Label| label::choose(
            set == n,
            label::with_tag(right, tag),
            right,
        );
        Entity {
            sa: more(0, self.sa),
            sd: more(1, self.sd),
            ia: more(2, self.ia),
            id: more(3, self.id),
            ..self
        }
    }

    // The entity with the set that a set field names replaced by what `change` makes of it.
    fn relabel<F: Fn(Label) -> Label>(self, set: u8, change: F) -> Entity
        requires { F.IsAlwaysCallable change }
        ensures { (f : Label → Label) → ((l r : Label) → F.post change l r → r ≡ f l) → result ≡ entity_as (relabel set f (bare self)) self.len }
    {
        Entity {
            sec: label::choose(set == 0, change(self.sec), self.sec),
            int: label::choose(set == 0, self.int, change(self.int)),
            ..self
        }
    }

    // The entity with a tag more, or less, in the set that a set field names.
    pub fn with_tag(self, set: u8, tag: u8) -> Entity
        ensures { result ≡ entity_as (relabel set (λ l. with_tag l tag) (bare self)) self.len }
    {
        self.relabel(set, |l| label::with_tag(l, tag))
    }

    pub fn without_tag(self, set: u8, tag: u8) -> Entity
        ensures { result ≡ entity_as (relabel set (λ l. without_tag l tag) (bare self)) self.len }
    {
        self.relabel(set, |l| label::without_tag(l, tag))
    }

    // A new entity of the kind that a set field names, with the S and I of self.
    pub fn create(self, set: u8) -> Entity
        ensures { result ≡ entity_as (created set (bare self)) 0 }
    {
        Entity {
            kind: new_kind(set),
            sec: self.sec,
            int: self.int,
            ..free_entity()
        }
    }

    pub fn with_len(self, len: usize) -> Entity
        ensures { result ≡ entity_as (bare self) len }
    {
        Entity { len, ..self }
    }

    // All that the entity wears or has a right over.
    pub fn held(self) -> Label
        ensures { result ≡ held (bare self) }
    {
        let worn = label::union(self.sec, self.int);
        let s_rights = label::union(self.sa, self.sd);
        let i_rights = label::union(self.ia, self.id);
        label::union(label::union(worn, s_rights), i_rights)
    }
}
