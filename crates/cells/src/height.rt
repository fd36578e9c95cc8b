// Height: a signed number of millimetres.
ghost use Rattle.std.specs.Prelude.{◌≡◌, ◌+ℤ◌};
ghost use Rattle.cells.specs.Levels.{half_down};
ghost use Rattle.cells.specs.Kinds.{HeightCell, heights, height_cell};

use crate::kind::{Kind, Measured, Ranked};

#[derive(Clone, Copy, PartialEq, Eq, PartialOrd, Ord, Debug)]
#[repr(C)]
pub struct Height(pub i32);

impl Kind for Height {
    ghost Cell = { HeightCell };

    ghost lattice = { heights };

    ghost means = { λ h. height_cell h.0 };

    fn meet(self, other: Height) -> Height {
        self.min(other)
    }

    fn join(self, other: Height) -> Height {
        self.max(other)
    }

    fn least() -> Height {
        Height(i32::MIN)
    }

    fn greatest() -> Height {
        Height(i32::MAX)
    }
}

impl Ranked for Height {
    fn above(self, other: Height) -> bool {
        self > other
    }
}

impl Measured for Height {
    ghost level = { λ h. (height_cell h.0).number };

    fn level(self) -> i32 {
        self.0
    }

    fn midway(self, other: Height) -> Height {
        Height(half_of_sum(self.0, other.0))
    }
}

// Half of the sum, rounded down, where the library's midpoint rounds towards zero; the sum itself may want 33 bits.
fn half_of_sum(a: i32, b: i32) -> i32
    ensures { result ≡ half_down (a +ℤ b) }
{
    ((a as i64 + b as i64) >> 1) as i32
}
