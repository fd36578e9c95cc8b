// Points at the limits, and the letter H.
use crate::chord::{Chord, ChordList};
use crate::cost;
use crate::fault::MaskFault;
use crate::lengths::LengthList;
use crate::mask::Mask;
use crate::point::Point;
use std::test::Fail;

#[test]
fn points_end_at_15(rt: HostRuntime) {
    assert!(rt; Mask::from_points(&[Point { u: 15, v: -15 }]).is_ok());
    assert_eq!(rt; refused(&[Point { u: 16, v: 0 }]), Some(8));
    assert_eq!(rt; refused(&[Point { u: 0, v: -16 }]), Some(8));
    assert_eq!(rt;
        refused(&[
            Point { u: 0, v: 0 },
            Point {
                u: i32::MIN,
                v: i32::MAX,
            },
        ]),
        Some(8)
    );
    assert_eq!(rt; refused(&[]), Some(7));
}

// The number of the refusal, if there is one.
fn refused(list: &[Point]) -> Option<u8> {
    Mask::from_points(list).err().map(|fault| fault.number())
}

#[test]
fn a_point_counts_once(rt: HostRuntime) -> Result<(), Fail> {
    let twice = Mask::from_points(&[Point { u: 1, v: 0 }, Point { u: 1, v: 0 }])?;
    assert_eq!(rt; twice.count(), 1);
    assert!(rt; twice.turned().holds(Point { u: -1, v: 0 }));
    assert!(rt; !twice.turned().holds(Point { u: 1, v: 0 }));
    assert_eq!(rt; Mask::fresh().count(), 1);
    Ok(())
}

#[test]
fn the_letter_h_has_five_chords(rt: HostRuntime) -> Result<(), Fail> {
    let h = Mask::from_points(&[
        Point { u: -1, v: -1 },
        Point { u: 1, v: -1 },
        Point { u: -1, v: 0 },
        Point { u: 0, v: 0 },
        Point { u: 1, v: 0 },
        Point { u: -1, v: 1 },
        Point { u: 1, v: 1 },
    ])?;
    let chords = ChordList::of(&h);
    assert!(rt; chords.as_slice().len() == 5);
    assert_eq!(rt;
        chords.as_slice()[2],
        Chord {
            v: 0,
            start: -1,
            length: 3,
        }
    );
    assert_eq!(rt; chords.extent(), (-1, 1));
    assert_eq!(rt; chords.clone()?.as_slice(), chords.as_slice());
    let copied = chords;
    assert_eq!(rt; copied.as_slice(), chords.as_slice());
    let lengths = LengthList::of(&h);
    assert!(rt; lengths.as_slice().len() == 3);
    assert_eq!(rt; lengths.clone()?.as_slice(), lengths.as_slice());
    let copied = lengths;
    assert_eq!(rt; copied.as_slice(), lengths.as_slice());
    assert_eq!(rt; cost::rows(&h), 3);
    assert_eq!(rt; cost::table_cells(&h, 4), 306);
    assert_eq!(rt; cost::filter_picks(&h, 4, 4), 454);
    assert_eq!(rt; cost::opening_picks(&h, 4, 4), 908);
    Ok(())
}

#[test]
fn a_cost_beyond_64_bits_is_the_largest_number(rt: HostRuntime) -> Result<(), Fail> {
    let pair = Mask::from_points(&[Point { u: 0, v: 0 }, Point { u: 2, v: 0 }])?;
    assert_eq!(rt; cost::filter_picks(&pair, u64::MAX, u64::MAX), u64::MAX);
    Ok(())
}
