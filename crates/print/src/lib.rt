// The lines that the programs print.
#![tactic(auto)]

ghost use Rattle.std.specs.Prelude.{[], ◌∷◌, ◌≡◌, ◌++◌, ◌<◌, take};
ghost use Rattle.rules.specs.Record.{record_size};
ghost use Rattle.label.specs.Words.{words};
ghost use Rattle.print.specs.Lines.{digit_text, hex_text, data_text, decimal_text, call_line, record_line, refused_text, refused_line, refused_audit, line_size, line_with};

use bounded::ByteVec;

// A line. The longest is that of a record and 64 bytes shown.
pub type Line = ByteVec<162>;

// Each push puts something behind a line of any room, as much of it as has room. By a reference: a line that goes in and comes back
// by value is copied at each byte.

pub fn push_bytes<const N: usize>(line: &mut ByteVec<N>, src: &[u8])
    ensures { line.new.items ≡ line_with N line.old.items src.now }
{
    let room = line.remaining_capacity();
    line.try_extend_from_slice(handing::front(src, room))
        .unwrap();
}

// `char::from_digit` answers a char, and as an Option, which is no plainer.
fn digit_text(n: u8) -> u8
    requires { n < 16 }
    ensures { result ≡ digit_text n }
{
    match n {
        0..=9 => b'0' + n,
        _ => b'a' - 10 + n,
    }
}

// Neither this nor a whole line is written by a Display: no clause of write! says when it succeeds, and a push always does.
fn push_hex<const N: usize>(line: &mut ByteVec<N>, src: &[u8])
    ensures { line.new.items ≡ line_with N line.old.items (hex_text src.now) }
{
    for b in src {
        push_bytes(line, &[digit_text(*b / 16), digit_text(*b % 16)]);
    }
}

// Data, and byte 10.
fn push_data<const N: usize>(line: &mut ByteVec<N>, src: &[u8])
    ensures { line.new.items ≡ line_with N line.old.items (data_text src.now ++ 10 ∷ []) }
{
    if src.is_empty() {
        push_bytes(line, b"-\n");
    } else {
        push_hex(line, src);
        push_bytes(line, b"\n");
    }
}

pub fn push_decimal<const N: usize>(line: &mut ByteVec<N>, n: u64)
    ensures { line.new.items ≡ line_with N line.old.items (decimal_text n) }
{
    let mut digits = itoa::Buffer::new();
    push_bytes(line, digits.format(n).as_bytes());
}

// Bytes as they are, in the place of a line; of more than a line can hold, its first.
pub fn line_of(src: &[u8]) -> Line
    ensures { result.items ≡ take line_size src.now }
{
    let mut line = Line::new();
    push_bytes(&mut line, src);
    line
}

// The line of a call: its record, and the bytes shown. Of at most 64 bytes shown it holds all.
pub fn call_line(entry: [u8; records::SIZE], shown: &[u8]) -> Line
    ensures { result.items ≡ take line_size (call_line entry shown.now) }
{
    let mut line = Line::new();
    push_hex(&mut line, &entry);
    push_bytes(&mut line, b" ");
    push_data(&mut line, shown);
    line
}

// The line of the record at a slice's front.
pub fn record_line(src: &[u8]) -> Line
    ensures { result.items ≡ record_line (take (record_size words) src.now) }
{
    let mut record = Line::new();
    push_hex(&mut record, handing::front(src, records::SIZE));
    push_bytes(&mut record, b"\n");
    record
}

// The number, here and below, is any byte: to take a `Refusal` would ask more of callers.
fn refused(number: u8) -> Line
    ensures { result.items ≡ refused_text ++ decimal_text number }
{
    let mut line = line_of(b"refused ");
    push_decimal(&mut line, u64::from(number));
    line
}

// The line of a refused audit.
pub fn refused_audit(number: u8) -> Line
    ensures { result.items ≡ refused_audit number }
{
    let mut refusal = refused(number);
    push_bytes(&mut refusal, b"\n");
    refusal
}

// The line of a refused text.
pub fn refused_line(number: u8, line: usize) -> Line
    ensures { result.items ≡ refused_line number line }
{
    let mut text = refused(number);
    push_bytes(&mut text, b" line ");
    push_decimal(&mut text, line as u64);
    push_bytes(&mut text, b"\n");
    text
}
