// The answer to a call: its outcome and its record, by what the call saw and what it does.
#![tactic(auto)]

ghost use Rattle.std.specs.Prelude.{◌≡◌, []};
ghost use Rattle.rules.specs.Record.{need_by};
ghost use Rattle.label.specs.Calls.{call_with};
ghost use Rattle.label.specs.Words.{words};
ghost use Rattle.records.specs.Record.{fields_given};
ghost use Rattle.answer.specs.Answered.{answered_by};

use decide::Seen;
use entity::Entity;
use label::Label;
use records::Numbered;
use rules::{Call, Kind, Refusal};

// What a call comes to: its outcome, and its record.
#[derive(Clone, Copy)]
pub struct Answer<E = Refusal> {
    pub outcome: Result<(), E>,
    pub entry: [u8; records::SIZE],
}

// What a call does where it is allowed: what it writes to which slot, and how many bytes it moves. A struct of slot,
// entity and block would be built for `set_slot` alone and taken apart there.
#[derive(Clone, Copy)]
pub struct Effect {
    pub slot: u8,
    pub entity: Entity,
    pub block: [u8; 64],
    pub moved: usize,
}

// The need by the caller's kind, where `was` and `is` are its S before and after the call and `other` is the S of the other's
// slot before it.
fn need_by(kind: Kind, was: Label, is: Label, other: Label) -> Label
    ensures { result ≡ need_by words kind was is other }
{
    match kind {
        Kind::Free => label::empty(),
        Kind::Item => was,
        Kind::Program => label::union(label::union(was, is), other),
    }
}

// The answer to a call, by what it saw, its outcome and its effect.
pub fn answer_of<E: Numbered>(call: Call, seen: Seen, v: Result<(), E>, x: Effect) -> Answer<E>
    ensures { result ≡ answered_by E.number_in (fields_given (call_with call [] [])) seen v x }
{
    let f = records::fields_of(call);
    let own = v.is_ok() & (f.caller == x.slot);
    let is = label::choose(own, x.entity.sec, seen.caller.sec);
    let all = need_by(seen.caller.kind, seen.caller.sec, is, seen.other.sec);
    let need = label::choose(seen.formed, all, label::empty());
    Answer {
        outcome: v,
        entry: records::record_of(
            f,
            records::number_of(v),
            records::moved_by(v, x.moved),
            need,
        ),
    }
}
