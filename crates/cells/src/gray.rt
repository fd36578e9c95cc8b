// Gray: a whole number from 0 to 255.
ghost use Rattle.cells.specs.Kinds.{GrayCell, grays, gray_cell};

use crate::kind::{Kind, Measured, Ranked};

#[derive(Clone, Copy, PartialEq, Eq, PartialOrd, Ord, Debug)]
#[repr(C)]
pub struct Gray(pub u8);

impl Kind for Gray {
    ghost Cell = { GrayCell };

    ghost lattice = { grays };

    ghost means = { λ g. gray_cell g.0 };

    fn meet(self, other: Gray) -> Gray {
        self.min(other)
    }

    fn join(self, other: Gray) -> Gray {
        self.max(other)
    }

    fn least() -> Gray {
        Gray(0)
    }

    fn greatest() -> Gray {
        Gray(255)
    }
}

impl Ranked for Gray {
    fn above(self, other: Gray) -> bool {
        self > other
    }
}

impl Measured for Gray {
    ghost level = { λ g. (gray_cell g.0).number };

    fn level(self) -> i32 {
        i32::from(self.0)
    }

    fn midway(self, other: Gray) -> Gray {
        Gray(self.0.midpoint(other.0))
    }
}
