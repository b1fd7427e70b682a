// Bytes in a value that can be copied.
#![tactic(auto)]

ghost use Rattle.std.specs.Prelude.{[], ◌∷◌, ◌++◌, ◌≡◌, ◌+◌, ◌<◌, ◌≤◌, ◌↔◌, length, IsSome, OnSome, IfNone};

use std::marker::Model;
use std::ops::DerefSlice;

// At most N bytes, which lie in the value itself. arrayvec's ArrayVec is not `Copy`.
#[derive(Clone, Copy)]
pub struct ByteVec<const N: usize> {
    bytes: [u8; N],
    len: usize,
}

// The bytes behind the first len are zeros. So the items determine the whole value, which `inverse` has to show of a `Copy` type.
impl<const N: usize> Model for ByteVec<N> {
    ghost use Rattle.std.specs.Prelude.{◌≡◌, ◌≤◌, length, take};
    ghost use Rattle.std.proofs.Common.{arith, length-take-le};
    ghost use Rattle.bounded.specs.ByteVec.{ByteVec as Items, padded};

    ghost Value = { Items };

    ghost view = { λ v. record { items = take v.len v.bytes } };

    ghost invariant = { λ v. (v.len ≤ N) × (length v.bytes ≡ N) × (padded N (take v.len v.bytes) ≡ v.bytes) };

    ghost inverse = { λ v. record { bytes = padded N v.items; len = length v.items } };

    ghost inverse_ok = { λ v h i. record {
      bytes = h.2 i;
      len = length-take-le v.len v.bytes (omega (arith, h.0, h.1)) i;
    } };
}

impl<const N: usize> ByteVec<N> {
    // No bytes.
    pub fn new() -> Self
        ensures { result.items ≡ [] }
    {
        ByteVec {
            bytes: [0; N],
            len: 0,
        }
    }

    // How many bytes there are.
    #[inline]
    pub fn len(&self) -> usize
        ensures value { result ≡ length self.now.items }
        ensures fits { result ≤ N }
    {
        self.deref().len()
    }

    // How many more bytes have room.
    #[inline]
    pub fn remaining_capacity(&self) -> usize
        ensures { result + length self.now.items ≡ N }
    {
        N - self.len
    }

    // Appends a byte. None where it has no room.
    #[inline]
    pub fn try_push(&mut self, byte: u8) -> Option<()>
        ensures variant { IsSome result ↔ (length self.old.items < N) }
        ensures items { OnSome result (self.new.items ≡ self.old.items ++ byte ∷ []) }
        ensures full { IfNone result (self.new ≡ self.old) }
    {
        let len = self.len;
        if N <= len {
            return None;
        }
        self.bytes[len] = byte;
        self.len = len + 1;
        Some(())
    }

    // Appends all of some bytes. None, and nothing is appended, where not all have room.
    #[inline]
    pub fn try_extend_from_slice(&mut self, src: &[u8]) -> Option<()>
        ensures variant { IsSome result ↔ (length self.old.items + length src.now ≤ N) }
        ensures items { OnSome result (self.new.items ≡ self.old.items ++ src.now) }
        ensures full { IfNone result (self.new ≡ self.old) }
    {
        if self.remaining_capacity() < src.len() {
            return None;
        }
        let len = self.len;
        let end = len + src.len();
        let room = &mut self.bytes[..];
        room[len..end].copy_from_slice(src);
        self.len = end;
        Some(())
    }
}

// The bytes.
impl<const N: usize> DerefSlice for ByteVec<N> {
    type Elem = u8;

    ghost deref_gives = { λ v xs. (xs ≡ v.items) × (length xs ≤ N) };

    #[inline]
    fn deref(&self) -> &[u8] {
        &self.bytes[..self.len]
    }
}
