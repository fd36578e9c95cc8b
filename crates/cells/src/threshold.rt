// The threshold, which takes gray to flags.
ghost use Rattle.std.specs.Prelude.{◌≡◌, ◌≤◌, MatchOption};
ghost use Rattle.cells.specs.Lattice.{LatticeMap};
ghost use Rattle.cells.specs.Kinds.{grays, gray_cell, marks, marks_of};
ghost use Rattle.cells.specs.Threshold.{thresholded, flags_from};

use crate::flags::Flags;
use crate::gray::Gray;

// A gray level from 1 to 255 at which cells are parted: those below have no mark, the others all.
#[derive(Clone, Copy)]
pub struct Threshold {
    level: u8,
    ghost some: { 1 ≤ level },
}

impl Threshold {
    // The threshold at a level; there is none at 0, below which no gray lies.
    pub fn new(level: u8) -> Option<Threshold>
        ensures { MatchOption result (level ≡ 0) (λ t. t.level ≡ level) }
    {
        // By `then`, the closure would not know that the level is not 0.
        if level == 0 {
            None
        } else {
            Some(Threshold { level })
        }
    }

    // The level at which cells are parted.
    pub fn level(self) -> u8
        ensures { result ≡ self.level }
    {
        self.level
    }

    // No marks for a gray below the level, all marks for any other. This is a lattice map, at every threshold.
    pub fn apply(self, gray: Gray) -> Flags
        ensures value { result ≡ flags_from self.level gray }
        ensures cell { marks_of result.0 ≡ thresholded self.level (gray_cell gray.0) }
        ensures map { LatticeMap grays marks (thresholded self.level) }
    {
        if gray.0 < self.level {
            Flags(0)
        } else {
            Flags(255)
        }
    }
}
