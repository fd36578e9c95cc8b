// Return: the strength of an echo, a float that lies in memory as its bits.
ghost use Rattle.std.specs.Prelude.{◌≡◌, ◌^◌, false, ◌≢◌, is_nan, to_bits};
ghost use Rattle.std.specs.Float.{binary32};
ghost use Rattle.cells.specs.Kinds.{ReturnCell, returns, return_cell, rank, counted};

use crate::kind::{Kind, Ranked};

// A return as it lies in memory: the bits of a float, of which any may stand here.
#[derive(Clone, Copy, PartialEq, Eq, Debug)]
#[repr(C)]
pub struct ReturnBits(pub u32);

// A return: a strength that is a number and not the negative zero.
#[derive(Clone, Copy)]
pub struct Return {
    strength: f32,
    ghost number: { is_nan strength ≡ false },
    ghost unsigned: { to_bits binary32 strength ≢ 2 ^ 31 },
}

impl Return {
    // The whole number by which returns are ordered. It is promised by itself, so that a derived order, by the float, would only
    // stand beside it.
    pub fn rank(self) -> i32
        ensures { result ≡ rank (to_bits binary32 self.strength) }
    {
        rank_of(self.strength.to_bits())
    }
}

// The return that the bits count as.
impl From<ReturnBits> for Return {
    ghost from_gives = { λ b r. to_bits binary32 r.strength ≡ counted b.0 };

    fn from(bits: ReturnBits) -> Return {
        Return {
            strength: f32::from_bits(counted_bits(bits.0)),
        }
    }
}

// The bits of a return.
impl From<Return> for ReturnBits {
    ghost from_gives = { λ r b. b.0 ≡ to_bits binary32 r.strength };

    fn from(number: Return) -> ReturnBits {
        ReturnBits(number.strength.to_bits())
    }
}

impl Kind for ReturnBits {
    ghost Cell = { ReturnCell };

    ghost lattice = { returns };

    ghost means = { λ r. return_cell r.0 };

    // Stored bits rank as what they count as does, so that one return has to be made and not two. By `min_by_key` and
    // `max_by_key`, that the key of the closure is the rank stays open.
    fn meet(self, other: ReturnBits) -> ReturnBits {
        let lower = if rank_of(other.0) < rank_of(self.0) {
            other
        } else {
            self
        };
        ReturnBits::from(Return::from(lower))
    }

    fn join(self, other: ReturnBits) -> ReturnBits {
        let higher = if rank_of(other.0) > rank_of(self.0) {
            other
        } else {
            self
        };
        ReturnBits::from(Return::from(higher))
    }

    fn least() -> ReturnBits {
        ReturnBits(0xff80_0000)
    }

    fn greatest() -> ReturnBits {
        ReturnBits(0x7f80_0000)
    }
}

impl Ranked for ReturnBits {
    fn above(self, other: ReturnBits) -> bool {
        Return::from(self).rank() > Return::from(other).rank()
    }
}

// The bits that stored bits count as.
fn counted_bits(b: u32) -> u32
    ensures { result ≡ counted b }
{
    if b < 0x8000_0000 {
        b.min(0x7f80_0000)
    } else if b == 0x8000_0000 {
        0
    } else {
        b.min(0xff80_0000)
    }
}

// The rank of a return's bits.
fn rank_of(b: u32) -> i32
    ensures { result ≡ rank b }
{
    if b < 0x8000_0000 {
        b as i32
    } else {
        -((b - 0x8000_0000) as i32)
    }
}
