// Cells as words of 32 bits, and back.
ghost use Rattle.std.specs.Prelude.{◌≡◌, ℕ, Some, Option as Maybe};
ghost use Rattle.std.specs.Option.{option_map};
ghost use Rattle.cells.specs.Kinds.{counted};
ghost use Rattle.cells.specs.Words.{gray_word, flags_word, height_word, return_word, not_a_number, unsigned};

use crate::echo::{Return, ReturnBits};
use crate::flags::Flags;
use crate::gray::Gray;
use crate::height::Height;
use crate::kind::Kind;

// A kind whose cells have a word of 32 bits each. It has methods of its own, since callers go by what these promise of every
// kind: beside TryFrom and Into the trait would have a law for each, and each kind two impls more.
pub trait WordForm: Kind {
    // The stored value of a word, if the word is a cell.
    ghost reads: { ℕ → Maybe Self };

    // The word of a stored value.
    ghost writes: { Self → ℕ };

    // Takes a word in; None where it is no cell of this kind.
    fn from_word(word: u32) -> Option<Self>
        ensures { result ≡ reads word };

    // The word of this cell. Taken in again, it gives this cell.
    fn to_word(self) -> u32
        ensures answer { result ≡ writes self }
        ensures again { option_map Self.Kind.means (reads result) ≡ Some (Self.Kind.means self) };
}

impl WordForm for Gray {
    ghost reads = { gray_word };

    ghost writes = { λ g. g.0 };

    fn from_word(word: u32) -> Option<Gray> {
        u8::try_from(word).ok().map(Gray)
    }

    fn to_word(self) -> u32 {
        u32::from(self.0)
    }
}

impl WordForm for Flags {
    ghost reads = { flags_word };

    ghost writes = { λ f. f.0 };

    fn from_word(word: u32) -> Option<Flags> {
        u8::try_from(word).ok().map(Flags)
    }

    fn to_word(self) -> u32 {
        u32::from(self.0)
    }
}

impl WordForm for Height {
    ghost reads = { height_word };

    ghost writes = { λ h. unsigned h.0 };

    fn from_word(word: u32) -> Option<Height> {
        Some(Height(word.cast_signed()))
    }

    fn to_word(self) -> u32 {
        self.0.cast_unsigned()
    }
}

impl WordForm for ReturnBits {
    ghost reads = { return_word };

    ghost writes = { λ r. counted r.0 };

    fn from_word(word: u32) -> Option<ReturnBits> {
        (!is_not_a_number(word)).then(|| ReturnBits::from(Return::from(ReturnBits(word))))
    }

    fn to_word(self) -> u32 {
        ReturnBits::from(Return::from(self)).0
    }
}

// Whether the bits are those of no number. Of such bits no float can be made, which could be asked itself.
fn is_not_a_number(bits: u32) -> bool
    ensures { result ≡ not_a_number bits }
{
    (0x7f80_0000 < bits && bits < 0x8000_0000) || 0xff80_0000 < bits
}
