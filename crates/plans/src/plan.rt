// The plan of a filter under a mask.
ghost use Rattle.std.specs.Prelude.{take};
ghost use Rattle.plans.specs.Sound.{Sound};

use crate::placed::{grid_place, placed, turned_chords};
use crate::planned::PlannedChords;
use masks::chord::ChordList;
use masks::cost::rows;
use masks::lengths::LengthList;
use masks::mask::Mask;

// The chords of a mask with the places of their lengths, its length list, and its rows. They fit each other.
#[derive(Clone, Copy)]
pub struct Plan {
    // How many rows lie above the origin.
    pub above: usize,
    // V: how many rows there are.
    pub rows: usize,
    pub lengths: LengthList,
    pub chords: PlannedChords,
    ghost sound: { Sound above rows (take lengths.count lengths.list) (take chords.count chords.list) },
}

impl Plan {
    ghost use Rattle.std.specs.Prelude.{map};
    ghost use Rattle.masks.specs.Points.{turned};
    ghost use Rattle.masks.specs.Rows.{points};
    ghost use Rattle.plans.specs.Plan.{PlanOf};

    // The plan of the mask.
    pub fn of(mask: &Mask) -> Plan
        ensures { PlanOf mask.now.rows (points mask.now.rows 31) result }
    {
        let chords = ChordList::of(mask);
        let lengths = LengthList::of(mask);
        let (north, _) = chords.extent();
        let first = grid_place(north);
        Plan {
            above: 15 - first,
            rows: rows(mask),
            chords: placed(&chords, &lengths, first),
            lengths,
        }
    }

    // The plan of the mask turned about the origin: it has as many rows and chords, and the same lengths.
    pub fn of_turned(mask: &Mask) -> Plan
        ensures { PlanOf mask.now.rows (map turned (points mask.now.rows 31)) result }
    {
        let plan = Plan::of(mask);
        Plan {
            above: plan.rows - 1 - plan.above,
            rows: plan.rows,
            chords: turned_chords(&plan),
            lengths: plan.lengths,
        }
    }
}
