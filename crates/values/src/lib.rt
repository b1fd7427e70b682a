// What a field says: a decimal number, a set of tags, or data.
#![tactic(auto)]

ghost use Rattle.std.specs.Prelude.{[], ◌≡◌, option_map};
ghost use Rattle.label.specs.Tags.{empty};
ghost use Rattle.values.specs.Values.{digit_of, decimal_from, decimal_of, set_from, hex_set_of, pairs_from, data_of};

use bounded::ByteVec;
use label::Label;

// The bytes that a field of data says.
pub type Data = ByteVec<255>;

// What a digit says. std's to_digit takes upper case, too.
#[tactic(auto, unfolding(crate::specs::Values::digit_of))]
pub fn digit(b: u8) -> Option<u8>
    ensures { result ≡ digit_of b }
{
    match b {
        b'0'..=b'9' => Some(b - b'0'),
        b'a'..=b'f' => Some(b - b'a' + 10),
        _ => None,
    }
}

// Decimal digits of a value of at most max. Here and for sets std's parsers do not serve: they want a `str`, and take a sign and
// upper case.
fn digits(s: &[u8], max: u8) -> Option<u8>
    ensures { result ≡ decimal_from max 0 s.now }
{
    let top = u64::from(max);
    let mut n: u64 = 0;
    for b in s {
        let d = digit(*b)?;
        n = n * 10 + u64::from(d);
        if 10 <= d || top < n {
            return None;
        }
    }
    Some(n as u8)
}

// A decimal field, 0 to max, without leading zeros.
#[tactic(auto, unfolding(crate::specs::Values::decimal_of))]
pub fn decimal(s: &[u8], max: u8) -> Option<u8>
    ensures { result ≡ decimal_of max s.now }
{
    if s.is_empty() || (1 < s.len() && s[0] == b'0') {
        return None;
    }
    digits(s, max)
}

// Hexadecimal digits.
fn hex_digits(s: &[u8]) -> Option<Label>
    ensures { result ≡ set_from empty s.now }
{
    let mut l = label::empty();
    for b in s {
        l = label::with_digit(l, digit(*b)?);
    }
    Some(l)
}

// A set: 1 to 16 hexadecimal digits.
#[tactic(auto, unfolding(crate::specs::Values::hex_set_of))]
pub fn hex_set(s: &[u8]) -> Option<Label>
    ensures { result ≡ hex_set_of s.now }
{
    if s.len() < 1 || 16 < s.len() {
        return None;
    }
    hex_digits(s)
}

// Two digits a byte, at most max bytes. A turn takes two by a pattern, so that no index is counted.
fn pairs(s: &[u8], max: u8) -> Option<Data>
    ensures { option_map (λ d. d.items) result ≡ pairs_from max [] s.now }
{
    let mut data = Data::new();
    let mut left = s;
    while let [h, l, rest @ ..] = left {
        let b = digit(*h)? * 16 + digit(*l)?;
        if usize::from(max) <= data.len() {
            return None;
        }
        data.try_push(b)?;
        left = rest;
    }
    if left.is_empty() { Some(data) } else { None }
}

// A data field: `-`, or two digits a byte, at most max bytes.
#[tactic(auto, unfolding(crate::specs::Values::data_of))]
pub fn data_field(s: &[u8], max: u8) -> Option<Data>
    ensures { option_map (λ d. d.items) result ≡ data_of max s.now }
{
    if text::same(s, b"-") {
        return Some(Data::new());
    }
    if s.is_empty() {
        return None;
    }
    pairs(s, max)
}
