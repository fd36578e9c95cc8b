// The kinds of cell, by the number that a head gives.
ghost use Rattle.std.specs.Prelude.{◌≡◌, Some, ok_or};
ghost use Rattle.strips.specs.Kinds.{kind_of, kind_name, is_cell};

use cells::echo::ReturnBits;
use cells::flags::Flags as FlagsCell;
use cells::gray::Gray as GrayCell;
use cells::height::Height as HeightCell;
use cells::words::WordForm;
use std::fmt;

// A kind of cell.
#[derive(Clone, Copy, PartialEq, Eq, Debug)]
pub enum CellKind {
    Gray,
    Height,
    Flags,
    Return,
}

// A number that no kind of cell has.
#[derive(Clone, Copy, PartialEq, Eq, Debug)]
pub struct NoSuchKind(pub u8);

// The kind with that number, if there is one.
impl TryFrom<u8> for CellKind {
    type Error = NoSuchKind;

    ghost try_from_gives = { λ n r. r ≡ ok_or (kind_of n) (record { 0 = n }) };

    fn try_from(n: u8) -> Result<CellKind, NoSuchKind> {
        match n {
            1 => Ok(CellKind::Gray),
            2 => Ok(CellKind::Height),
            3 => Ok(CellKind::Flags),
            4 => Ok(CellKind::Return),
            _ => Err(NoSuchKind(n)),
        }
    }
}

impl fmt::Display for CellKind {
    ghost output = { λ k. Some (kind_name k) };

    fn fmt<W: fmt::Write>(&self, f: &mut fmt::Formatter<W>) -> fmt::Result {
        f.write_str(match self {
            CellKind::Gray => "gray",
            CellKind::Height => "height",
            CellKind::Flags => "flags",
            CellKind::Return => "return",
        })
    }
}

impl CellKind {
    // Whether the word is a cell of this kind.
    pub fn has(self, word: u32) -> bool
        ensures { result ≡ is_cell self word }
    {
        match self {
            CellKind::Gray => <GrayCell as WordForm>::from_word(word).is_some(),
            CellKind::Height => <HeightCell as WordForm>::from_word(word).is_some(),
            CellKind::Flags => <FlagsCell as WordForm>::from_word(word).is_some(),
            CellKind::Return => <ReturnBits as WordForm>::from_word(word).is_some(),
        }
    }
}
