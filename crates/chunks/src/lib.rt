// Output in chunks: lines, one behind another, in buffers that the programs lend, since nothing allocates. So a buffer and how
// far it is filled stand side by side.
#![tactic(auto)]

ghost use Rattle.std.specs.Prelude.{◌≡◌, length};
ghost use Rattle.rules.specs.Record.{filled};
ghost use Rattle.chunks.specs.Chunks.{appended, appended_to, chunk};
ghost use Rattle.chunks.specs.Lists.{record_pieces, as_list_chunk};

// A line goes behind the first n bytes of a buffer. Answers where it ends; None where it has no room, and nothing is written.
pub fn append(line: &[u8], out: &mut [u8], n: usize) -> Option<usize>
    ensures after { out.new ≡ appended out.old n line.now }
    ensures value { result ≡ appended_to out.old n line.now }
{
    let end = n.checked_add(line.len())?;
    if end > out.len() {
        return None;
    }
    out[n..end].copy_from_slice(line);
    Some(end)
}

// A chunk of output: the place of what comes next, and how many bytes of a lent buffer the chunk takes. It holds no bytes: the
// buffer is the caller's, who goes on at that place.
#[derive(Clone, Copy)]
pub struct Chunk {
    pub at: usize,
    pub len: usize,
}

// The lines of a list's records from a place on go to the front of a lent buffer, as long as a line has room there.
pub fn record_lines(list: &[u8], from: usize, out: &mut [u8]) -> Chunk
    ensures value { result ≡ as_list_chunk (chunk (record_pieces list.now) (length out.old) from) }
    ensures out_after { out.new ≡ filled (chunk (record_pieces list.now) (length out.old) from).0 out.old }
{
    // Counted beside the records, since the chunk answers both.
    let mut at = from;
    let mut len = 0;
    for record in list[from.min(list.len())..].chunks_exact(records::SIZE) {
        let Some(end) = append(&print::record_line(record), out, len) else {
            break;
        };
        len = end;
        at += records::SIZE;
    }
    Chunk { at, len }
}
