// What the rules speak of: kinds of entities, refusals, calls.
#![tactic(auto)]

ghost use Rattle.std.specs.Prelude.{◌≡◌};
ghost use Rattle.rules.specs.Numbers.{number};

// What a slot holds. Free comes first, as the value that definitions give to a read past an array's end.
#[derive(Clone, Copy, PartialEq, Eq)]
pub enum Kind {
    Free,
    Item,
    Program,
}

// Why a call, an audit or a text is turned down. Each has its number: records, programs and C give it.
#[derive(Clone, Copy)]
pub enum Refusal {
    // The caller's slot is above 31, free or an item.
    NoProgram = 1,
    // The other's slot is above 31, the tag is above 63, or the set field has no meaning for the call.
    OutOfRange = 2,
    // The other's slot is free.
    SlotFree = 3,
    // The slot named for a new entity is not free.
    SlotTaken = 4,
    // More than 64 bytes are put.
    TooLong = 5,
    // The buffer lent to a show is shorter than the content.
    NoRoom = 6,
    // The flow is not allowed.
    FlowForbidden = 7,
    // What is released is neither the caller nor an item with the caller's S and I.
    NotReleasable = 8,
    // A right is handed to an item.
    OtherIsItem = 9,
    // The caller lacks the right.
    NoRight = 10,
    // The receiver with the new right would break a group.
    BreaksGroup = 11,
    // The list audited is no whole number of records.
    ListNotWhole = 12,
    // The records to be shown need more bytes than the lent buffer has.
    NoRoomForRecords = 13,
    // The text is longer than 65,535 bytes.
    TextTooLong = 14,
    // A line does not have the form.
    BadLine = 15,
    // A slot is named by an earlier line too.
    SlotTwice = 16,
    // An entity of the text breaks a group.
    EntityBreaksGroup = 17,
    // The table lacks the form; this comes before all others.
    Formless = 99,
}

impl Refusal {
    // By its name, since a `u8::from` would not say which number it gives.
    pub fn number(self) -> u8
        ensures { result ≡ number self }
    {
        self as u8
    }
}

// The nine calls by what each names as one byte: the caller, then the other's slot, the set field and the tag, as far as it
// uses them. The bytes put and the buffer lent stand beside it. The set field is any of 256 numbers, since a call gives it as one
// byte: refusal 2 is for those without a meaning.
#[derive(Clone, Copy)]
pub enum Call {
    Put(u8),
    Show(u8),
    Send(u8, u8),
    Fetch(u8, u8),
    Add(u8, u8, u8),
    Drop(u8, u8, u8),
    Create(u8, u8, u8),
    Release(u8, u8),
    Hand(u8, u8, u8, u8),
}
