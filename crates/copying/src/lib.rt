// Bytes copied to the front of a lent buffer.
#![tactic(auto)]

ghost use Rattle.std.specs.Prelude.{◌≡◌, ◌++◌, length, take, drop};

// The bytes go to the buffer's front, as many as it has room for; what is behind them is left as it is.
pub fn copy(bytes: &[u8], out: &mut [u8])
    ensures { out.new ≡ take (length out.old) bytes.now ++ drop (length bytes.now) out.old }
{
    let n = bytes.len().min(out.len());
    out[..n].copy_from_slice(&bytes[..n]);
}
