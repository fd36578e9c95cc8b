// Flags: a set of eight marks.
ghost use Rattle.cells.specs.Kinds.{Marks, marks, marks_of};

use crate::kind::Kind;

// The marks, each a bit of the byte.
#[derive(Clone, Copy, PartialEq, Eq, Debug)]
#[repr(C)]
pub struct Flags(pub u8);

impl Kind for Flags {
    ghost Cell = { Marks };

    ghost lattice = { marks };

    ghost means = { λ f. marks_of f.0 };

    fn meet(self, other: Flags) -> Flags {
        Flags(self.0 & other.0)
    }

    fn join(self, other: Flags) -> Flags {
        Flags(self.0 | other.0)
    }

    fn least() -> Flags {
        Flags(0)
    }

    fn greatest() -> Flags {
        Flags(255)
    }
}
