// A label: a set of tags 0 to 63, tag n at weight 2 to the n. And conflict groups of such tags.
#![tactic(auto)]

ghost use Rattle.std.specs.Prelude.{◌≡◌, ◌^◌, cond, ltb};
ghost use Rattle.label.specs.Tags.{empty, has_tag, subset_of, equal_of, is_empty, union_of, with_tag, without_tag, with_digit, common_of, keeps_to, group_formed, bytes_of, from_bytes};

#[derive(Clone, Copy, PartialEq, Eq)]
pub struct Label {
    pub bits: u64,
}

// A conflict group: its tags, and the most of them that an entity may have.
#[derive(Clone, Copy)]
pub struct Group {
    pub tags: Label,
    pub most: u8,
}

// No tags. It is named for what it is: a `Default` would say no more, and less plainly.
pub fn empty() -> Label
    ensures { result ≡ empty }
{
    Label { bits: 0 }
}

// Whether every tag of a is in b.
pub fn subset(a: Label, b: Label) -> bool
    ensures { result ≡ subset_of a b }
{
    a.bits & b.bits == a.bits
}

// Whether the two have the same tags: what `==` says, tag by tag, under the name that contracts have for it.
pub fn same(a: Label, b: Label) -> bool
    ensures { result ≡ equal_of a b }
{
    a == b
}

pub fn is_empty(l: Label) -> bool
    ensures { result ≡ is_empty l }
{
    l.bits == 0
}

// The tags that are in a or in b.
pub fn union(a: Label, b: Label) -> Label
    ensures { result ≡ union_of a b }
{
    Label {
        bits: a.bits | b.bits,
    }
}

// The number of that tag alone; 0 for a tag above 63, which is in no label: has_tag answers false, and with_tag and without_tag
// give the label as it is.
fn bit(t: u8) -> u64
    ensures { result ≡ cond (ltb t 64) (2 ^ t) 0 }
{
    if t < 64 { 1 << t } else { 0 }
}

pub fn has_tag(l: Label, t: u8) -> bool
    ensures { result ≡ has_tag l t }
{
    l.bits & bit(t) != 0
}

// A tag more and a tag less are two operations of a set; one function of both would take a flag for which is meant.
pub fn with_tag(l: Label, t: u8) -> Label
    ensures { result ≡ with_tag l t }
{
    Label {
        bits: l.bits | bit(t),
    }
}

pub fn without_tag(l: Label, t: u8) -> Label
    ensures { result ≡ without_tag l t }
{
    Label {
        bits: l.bits & !bit(t),
    }
}

// The label with the hexadecimal digit d after its own: its tags four higher, those of d below them.
pub fn with_digit(l: Label, d: u8) -> Label
    ensures { result ≡ with_digit l d }
{
    Label {
        bits: (l.bits << 4) + ((d % 16) as u64),
    }
}

// How many tags the two have in common.
pub fn common(a: Label, b: Label) -> u32
    ensures { result ≡ common_of a b }
{
    u64::count_ones(a.bits & b.bits)
}

// Whether who holds all of l keeps to a conflict group: it has at most as many of its tags as the group's number says.
pub fn keeps(group: Group, l: Label) -> bool
    ensures { result ≡ keeps_to group l }
{
    common(l, group.tags) <= group.most as u32
}

// Whether a group has the form: its number is from 1 to 64.
pub fn group_formed(group: Group) -> bool
    ensures { result ≡ group_formed group }
{
    1 <= group.most && group.most <= 64
}

// The first where the test holds, else the second.
pub fn choose<T: Copy>(test: bool, a: T, b: T) -> T
    ensures { result ≡ cond test a b }
{
    if test { a } else { b }
}

// The tags as eight bytes, tags 0 to 7 in the first. Named as std names a number's bytes: a `From` would not say their order.
pub fn to_bytes(l: Label) -> [u8; 8]
    ensures { result ≡ bytes_of l }
{
    l.bits.to_le_bytes()
}

// The label of eight bytes, tags 0 to 7 in the first.
pub fn from_bytes(b: [u8; 8]) -> Label
    ensures { result ≡ from_bytes b }
{
    Label {
        bits: u64::from_le_bytes(b),
    }
}
