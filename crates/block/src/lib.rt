// The content area: a block of 64 bytes for each of the 32 slots. It is lent beside a slot: a Table has it beside other arrays,
// as document 01 lays it out, and a struct of the area and a slot would be built for each call alone.
#![tactic(auto)]

ghost use Rattle.std.specs.Prelude.{◌≡◌, drop};
ghost use Rattle.block.specs.Block.{all_zero, no_block, padded, block_at, bytes_at, filled_front};

// A block of zeros, named for what it is: an array's `Default` would say it less plainly.
pub fn empty() -> [u8; 64]
    ensures { result ≡ no_block }
{
    [0u8; 64]
}

// A block of the first 64 bytes, with zeros behind them where there are fewer.
pub fn pad(bs: &[u8]) -> [u8; 64]
    ensures { result ≡ padded bs.now }
{
    let mut out = empty();
    copying::copy(bs, &mut out);
    out
}

// The bytes of a slot in a content area: none for a slot above 31, and fewer than 64 where the area ends before them.
fn bytes_of(content: &[u8], slot: u8) -> &[u8]
    ensures { result.now ≡ bytes_at content.now slot }
{
    let end = content.len();
    let from = (slot as usize * 64).min(end);
    if slot < 32 {
        &content[from..(from + 64).min(end)]
    } else {
        &content[..0]
    }
}

// The block of a slot of a content area; a slot above 31 has zeros, and so has what an area of less than 2,048 bytes lacks.
pub fn read(content: &[u8], slot: u8) -> [u8; 64]
    ensures { result ≡ padded (block_at content.now slot) }
{
    pad(bytes_of(content, slot))
}

// Whether the content bytes of a slot beyond a length are zero. Unlike `all`, the fold reads every byte and leaves at none of
// them, so that the compiler can test many at once.
pub fn zero_beyond(content: &[u8], slot: u8, n: usize) -> bool
    ensures { result ≡ all_zero (drop n (block_at content.now slot)) }
{
    let bytes = bytes_of(content, slot);
    bytes[n.min(bytes.len())..]
        .iter()
        .fold(true, |all, b| all & (*b == 0))
}

// The first n bytes of a block go to the front of a buffer, as far as there are so many in either.
pub fn copy_front(block: [u8; 64], n: usize, out: &mut [u8])
    ensures { out.new ≡ filled_front block n out.old }
{
    copying::copy(&block[..n.min(64)], out);
}
