// Strips in words: one that is accepted, and each refusal once.
use crate::fault::{Ground, StripFault};
use crate::kind::CellKind;
use crate::parts::{PointFields, Step};
use crate::reader::read;
use masks::point::Point;
use morphology::call::Filter;
use sheets::holder::Size;
use sheets::window::Rectangle;
use std::alloc::{AllocError, Global};
use std::test::Fail;

// Head, cells and end of a strip without cells, and single words.
const NO_SHEET: u32 = 0x1100_0000;

const NO_CELLS: u32 = 0x2000_0000;

const ORIGIN: u32 = 0x5000_01ef;

const END: u32 = 0x7000_0000;

// The bytes of these words.
fn spelled(heap: Global, words: &[u32]) -> Result<Vec<u8>, AllocError> {
    let mut bytes = Vec::new(heap);
    for word in words {
        bytes.extend_from_slice(&word.to_be_bytes())?;
    }
    Ok(bytes)
}

// Whether these words are refused on that ground, told of the word at that place.
fn refused(heap: Global, words: &[u32], ground: Ground, place: usize) -> Result<bool, AllocError> {
    let bytes = spelled(heap, words)?;
    Ok(read(bytes.as_slice()).is_err_and(|found| found == StripFault::At(ground, place)))
}

// Whether these words are accepted.
fn accepted(heap: Global, words: &[u32]) -> Result<bool, AllocError> {
    let bytes = spelled(heap, words)?;
    Ok(read(bytes.as_slice()).is_ok())
}

#[test]
fn the_worked_strip_is_accepted(rt: HostRuntime) -> Result<(), Fail> {
    let words = [
        0x1100_3001,
        0x2000_0003,
        7,
        9,
        4,
        ORIGIN,
        0x5000_020f,
        0x6000_0003,
        END,
    ];
    let bytes = spelled(rt.alloc(), &words)?;
    let job = read(bytes.as_slice())?;
    assert_eq!(rt; job.kind(), CellKind::Gray);
    assert_eq!(rt; job.width(), 3);
    assert_eq!(rt; job.height(), 1);
    assert_eq!(rt; job.raw(0), Some(7));
    assert_eq!(rt; job.raw(2), Some(4));
    assert_eq!(rt; job.raw(3), None);
    assert_eq!(rt; job.window(), None);
    assert_eq!(rt; job.steps(), 3);
    assert_eq!(rt;
        job.step(1),
        Some(Step::Point(PointFields { u: 16, v: 15 }))
    );
    assert_eq!(rt; job.step(2), Some(Step::Call(Filter::Open)));
    assert_eq!(rt; job.step_place(2), Some(7));
    assert_eq!(rt; job.step(3), None);
    Ok(())
}

#[test]
fn a_window_and_a_mask_of_height_cells(rt: HostRuntime) -> Result<(), Fail> {
    let words = [
        0x1200_2001,
        0x2000_0002,
        0xffff_ffff,
        0x8000_0000,
        0x3000_1000,
        0x4000_1001,
        0x6000_0004,
        0x5000_03e0,
        END,
    ];
    let bytes = spelled(rt.alloc(), &words)?;
    let job = read(bytes.as_slice())?;
    assert_eq!(rt; job.kind(), CellKind::Height);
    assert_eq!(rt;
        job.window(),
        Some(Rectangle {
            left: 1,
            top: 0,
            size: Size {
                width: 1,
                height: 1,
            },
        })
    );
    assert_eq!(rt; job.step(0), Some(Step::Call(Filter::Close)));
    // A field of 31 is no fault of the strip.
    assert_eq!(rt; job.step(1), Some(Step::Point(PointFields { u: 31, v: 0 })));
    assert_eq!(rt; job.step_place(1), Some(7));
    assert_eq!(rt;
        Point::from(PointFields { u: 31, v: 0 }),
        Point { u: 16, v: -15 }
    );
    Ok(())
}

#[test]
fn a_word_that_is_due_stands_whole(rt: HostRuntime) -> Result<(), Fail> {
    assert!(rt; refused(rt.alloc(), &[], Ground::CutShort, 0)?);
    assert!(rt; refused(rt.alloc(), &[NO_SHEET, NO_CELLS], Ground::CutShort, 2)?);
    assert!(rt;
        refused(
            rt.alloc(),
            &[0x1100_1001, 0x2000_0001, 7],
            Ground::CutShort,
            3
        )?
    );
    assert_eq!(rt;
        read(&[0x11, 0, 0]).err(),
        Some(StripFault::At(Ground::CutShort, 0))
    );
    Ok(())
}

#[test]
fn a_word_is_one_of_the_seven(rt: HostRuntime) -> Result<(), Fail> {
    assert!(rt; refused(rt.alloc(), &[0], Ground::NoWord, 0)?);
    assert!(rt; refused(rt.alloc(), &[0x8000_0000], Ground::NoWord, 0)?);
    // An unused bit of a word that is not due is told first.
    assert!(rt; refused(rt.alloc(), &[0x3100_0000], Ground::NoWord, 0)?);
    assert!(rt;
        refused(
            rt.alloc(),
            &[NO_SHEET, NO_CELLS, 0x5000_0400],
            Ground::NoWord,
            2
        )?
    );
    assert!(rt;
        refused(
            rt.alloc(),
            &[NO_SHEET, NO_CELLS, 0x6000_0000],
            Ground::NoWord,
            2
        )?
    );
    assert!(rt;
        refused(
            rt.alloc(),
            &[NO_SHEET, NO_CELLS, 0x6000_0005],
            Ground::NoWord,
            2
        )?
    );
    assert!(rt;
        refused(
            rt.alloc(),
            &[NO_SHEET, NO_CELLS, 0x7000_0001],
            Ground::NoWord,
            2
        )?
    );
    Ok(())
}

#[test]
fn a_word_is_due_where_it_stands(rt: HostRuntime) -> Result<(), Fail> {
    assert!(rt; refused(rt.alloc(), &[END], Ground::OutOfOrder, 0)?);
    // A head that is not due is out of order, whatever its kind of cell.
    assert!(rt; refused(rt.alloc(), &[NO_SHEET, 0x1900_0000], Ground::OutOfOrder, 1)?);
    assert!(rt;
        refused(
            rt.alloc(),
            &[NO_SHEET, NO_CELLS, END, END],
            Ground::OutOfOrder,
            3
        )?
    );
    Ok(())
}

#[test]
fn a_corner_and_an_extent_stand_before_the_steps(rt: HostRuntime) -> Result<(), Fail> {
    let corner = 0x3000_0000;
    let extent = 0x4000_1001;
    assert!(rt;
        refused(
            rt.alloc(),
            &[NO_SHEET, NO_CELLS, corner, END],
            Ground::OutOfOrder,
            3
        )?
    );
    assert!(rt;
        refused(
            rt.alloc(),
            &[NO_SHEET, NO_CELLS, extent, END],
            Ground::OutOfOrder,
            2
        )?
    );
    assert!(rt;
        refused(
            rt.alloc(),
            &[NO_SHEET, NO_CELLS, corner, extent, corner],
            Ground::OutOfOrder,
            4
        )?
    );
    assert!(rt;
        refused(
            rt.alloc(),
            &[NO_SHEET, NO_CELLS, ORIGIN, corner],
            Ground::OutOfOrder,
            3
        )?
    );
    Ok(())
}

#[test]
fn bytes_behind_the_end_are_the_next_word(rt: HostRuntime) -> Result<(), Fail> {
    let mut bytes = spelled(rt.alloc(), &[NO_SHEET, NO_CELLS, END])?;
    assert!(rt; read(bytes.as_slice()).is_ok());
    for _ in 0..3 {
        bytes.push(0)?;
        assert_eq!(rt;
            read(bytes.as_slice()).err(),
            Some(StripFault::At(Ground::OutOfOrder, 3))
        );
    }
    Ok(())
}

#[test]
fn a_head_has_a_kind_and_its_count(rt: HostRuntime) -> Result<(), Fail> {
    assert!(rt; refused(rt.alloc(), &[0x1000_0000], Ground::NoKind, 0)?);
    assert!(rt; refused(rt.alloc(), &[0x1500_0000], Ground::NoKind, 0)?);
    assert!(rt;
        refused(
            rt.alloc(),
            &[0x1100_3001, 0x2000_0004],
            Ground::WrongCount,
            1
        )?
    );
    // A count that is right, and too large for the strip, is told where a cell is missing or none.
    assert!(rt; refused(rt.alloc(), &[0x11ff_ffff, 0x20ff_e001], Ground::CutShort, 2)?);
    assert!(rt;
        refused(
            rt.alloc(),
            &[0x11ff_ffff, 0x20ff_e001, 256],
            Ground::NoCell,
            2
        )?
    );
    Ok(())
}

#[test]
fn a_raw_word_is_a_cell_of_its_kind(rt: HostRuntime) -> Result<(), Fail> {
    let one = 0x2000_0001;
    assert!(rt; accepted(rt.alloc(), &[0x1100_1001, one, 255, END])?);
    assert!(rt; refused(rt.alloc(), &[0x1100_1001, one, 256, END], Ground::NoCell, 2)?);
    assert!(rt; refused(rt.alloc(), &[0x1300_1001, one, 256, END], Ground::NoCell, 2)?);
    assert!(rt; accepted(rt.alloc(), &[0x1200_1001, one, 0xffff_ffff, END])?);
    assert!(rt; accepted(rt.alloc(), &[0x1400_1001, one, 0x7f80_0000, END])?);
    assert!(rt;
        refused(
            rt.alloc(),
            &[0x1400_1001, one, 0x7f80_0001, END],
            Ground::NoCell,
            2
        )?
    );
    assert!(rt; accepted(rt.alloc(), &[0x1400_1001, one, 0x8000_0000, END])?);
    Ok(())
}

#[test]
fn a_strip_has_at_most_65536_bytes(rt: HostRuntime) -> Result<(), Fail> {
    let mut bytes = spelled(rt.alloc(), &[NO_SHEET, NO_CELLS])?;
    for _ in 0..16_381 {
        bytes.extend_from_slice(&ORIGIN.to_be_bytes())?;
    }
    bytes.extend_from_slice(&END.to_be_bytes())?;
    assert_eq!(rt; bytes.len(), 65_536);
    assert_eq!(rt; read(bytes.as_slice())?.steps(), 16_381);
    bytes.push(0)?;
    assert_eq!(rt; read(bytes.as_slice()).err(), Some(StripFault::TooLong));
    assert_eq!(rt; StripFault::TooLong.number(), 1);
    assert_eq!(rt; StripFault::TooLong.word(), 16_384);
    Ok(())
}

#[test]
fn a_refusal_is_told_by_number_and_word(rt: HostRuntime) -> Result<(), Fail> {
    let text = format!(in rt.alloc(); "{}", StripFault::At(Ground::NoCell, 5))?;
    assert_eq!(rt;
        text.as_str(),
        "refused 6: word 5: the word is no cell of the head's kind"
    );
    Ok(())
}
