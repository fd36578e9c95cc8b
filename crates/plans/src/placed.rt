// The chords of a mask in the coordinates of the chord table, and those of the mask turned.
ghost use Rattle.std.specs.Prelude.{◌≡◌, ◌+◌, ◌-◌, ◌≤◌, map, length, pos, ◌+ℤ◌, slice_index};
ghost use Rattle.std.specs.List.{AllByRecursion};
ghost use Rattle.masks.specs.Chords.{Near, OnGrid};
ghost use Rattle.masks.specs.Shown.{chords_in, lengths_in};
ghost use Rattle.plans.specs.Sound.{Within};
ghost use Rattle.plans.specs.Placed.{Below, index_of, planned, turned_chord};
ghost use Rattle.plans.specs.Shown.{planned_in, lengths_of, chords_of};

use crate::plan::Plan;
use crate::planned::PlannedChords;
use masks::chord::{Chord, ChordList};
use masks::lengths::LengthList;

// A chord of the mask, in the coordinates of the chord table. The default stands in the unused places of a list.
#[derive(Clone, Copy, Default)]
pub struct PlannedChord {
    // Rows count from the northmost row of the mask or the origin.
    pub row: usize,
    // Columns count from -15.
    pub column: usize,
    // The place of the chord's length in the length list.
    pub index: usize,
}

// The chords turned about the origin, each in its place.
pub(crate) fn turned_chords(plan: &Plan) -> PlannedChords
    ensures { planned_in result ≡ map (turned_chord plan.now.rows (lengths_of plan.now)) (chords_of plan.now) }
{
    let mut turned = PlannedChords::new();
    for c in plan.chords.as_slice() {
        turned.push(turned_chord(plan, *c));
    }
    turned
}

// The chord on the other side of the origin.
fn turned_chord(plan: &Plan, c: PlannedChord) -> PlannedChord
    requires within { Within plan.now.rows (length (lengths_of plan.now)) c }
    requires ends { c.column + slice_index (lengths_of plan.now) c.index ≤ 31 }
    ensures { result ≡ turned_chord plan.now.rows (lengths_of plan.now) c }
{
    PlannedChord {
        row: plan.rows - 1 - c.row,
        column: turned_column(c.column, plan.lengths.as_slice()[c.index]),
        index: c.index,
    }
}

// The first column of a run on the other side of the origin: the offset of its last point, negated. Columns count from -15.
fn turned_column(column: usize, length: usize) -> usize
    requires { (1 ≤ length) × (column + length ≤ 31) }
    ensures { result ≡ 31 - column - length }
{
    let last = (column + length - 1) as i32 - 15;
    (-last + 15) as usize
}

// The row or the column of an offset, counted from -15. The crate masks has the same for itself: what is public asks nothing of
// its callers, and an Option would give each of them a case that never comes.
pub(crate) fn grid_place(offset: i32) -> usize
    requires { Near offset }
    ensures { pos result ≡ offset +ℤ pos 15 }
{
    (offset + 15) as usize
}

// The chords in the coordinates of the table, whose first row is `first`.
pub(crate) fn placed(chords: &ChordList, lengths: &LengthList, first: usize) -> PlannedChords
    requires { AllByRecursion (Below first) (chords_in chords.now) }
    ensures { planned_in result ≡ map (planned first (lengths_in lengths.now)) (chords_in chords.now) }
{
    let mut list = PlannedChords::new();
    for c in chords.as_slice() {
        list.push(placed_chord(*c, lengths.as_slice(), first));
    }
    list
}

// A chord in the coordinates of the table.
fn placed_chord(c: Chord, lengths: &[usize], first: usize) -> PlannedChord
    requires { OnGrid c × Below first c }
    ensures { result ≡ planned first lengths.now c }
{
    PlannedChord {
        row: grid_place(c.v) - first,
        column: grid_place(c.start),
        index: index_of(lengths, c.length),
    }
}

// How many lengths stand before the first that is the given one.
fn index_of(lengths: &[usize], length: usize) -> usize
    ensures { result ≡ index_of lengths.now length }
{
    lengths.iter().take_while(|a| **a != length).count()
}
