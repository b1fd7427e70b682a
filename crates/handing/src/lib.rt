// Front parts: the first of some items, and what is handed back of a lent buffer.
#![tactic(auto)]

ghost use Rattle.std.specs.Prelude.{◌≡◌, take};

use rules::Refusal;

// The filled front part of a lent buffer, and the outcome. It is no `Result` of the part: document 01 hands a part back from a
// refused audit too, an empty one.
#[derive(Clone, Copy)]
pub struct Filled<'a> {
    pub part: &'a [u8],
    pub outcome: Result<(), Refusal>,
}

// The first n of some items, where they stand; all of them where there are fewer. What a part holds and where it stands are two
// equations, here and wherever a part is handed on: no single definition says both.
pub fn front<'a, T>(all: &'a [T], n: usize) -> &'a [T]
    ensures { (result.now ≡ take n all.now) × (result.ref_ptr ≡ all.entry.ref_ptr) }
{
    &all[..n.min(all.len())]
}
