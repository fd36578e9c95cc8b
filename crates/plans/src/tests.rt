// Chords that others list.
use crate::placed::PlannedChord;
use crate::plan::Plan;
use crate::planned::PlannedChords;
use masks::mask::Mask;
use masks::point::Point;
use std::test::Fail;

// A list takes in 496 chords, and no more.
#[test]
fn a_list_has_room_for_496_chords(rt: HostRuntime) {
    let chord = PlannedChord {
        row: 1,
        column: 2,
        index: 3,
    };
    let chords = [chord; 497];
    assert!(rt; PlannedChords::of(&chords).is_none());
    let some = PlannedChords::of(&chords[1..]);
    assert!(rt; some.is_some_and(|list| list.as_slice().len() == 496));
    let none = PlannedChords::of(&[]);
    assert!(rt; none.is_some_and(|list| list.as_slice().is_empty()));
}

// The chords of a plan, listed again, are the same.
#[test]
fn the_chords_of_a_plan_can_be_listed(rt: HostRuntime) -> Result<(), Fail> {
    let points = [
        Point { u: -1, v: 0 },
        Point { u: 0, v: 0 },
        Point { u: 1, v: 1 },
    ];
    let Ok(mask) = Mask::from_points(&points) else {
        assert!(rt; false);
        return Ok(());
    };
    let plan = Plan::of(&mask);
    let chords = plan.chords.as_slice();
    assert!(rt; chords.len() == 2);
    let Some(list) = PlannedChords::of(chords) else {
        assert!(rt; false);
        return Ok(());
    };
    for (listed, chord) in list.as_slice().iter().zip(chords) {
        assert_eq!(rt; (listed.row, listed.column), (chord.row, chord.column));
        assert!(rt; listed.index == chord.index);
    }
    assert!(rt; list.as_slice().len() == 2);
    Ok(())
}
