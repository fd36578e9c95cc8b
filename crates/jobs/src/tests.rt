// Strips in words, and their listings as text.
use crate::fault::{JobFault, Layer, PointsFault};
use crate::run::run_to_text;
use masks::fault::MaskFault;
use morphology::refusal::Refusal;
use std::alloc::{AllocError, Global};
use std::test::Fail;
use strips::fault::{Ground, StripFault};

// A gray sheet of 3 by 1, 7 9 4, a call to open it, the end, and single points.
const HEAD: u32 = 0x1100_3001;

const CELLS: u32 = 0x2000_0003;

const ORIGIN: u32 = 0x5000_01ef;

const EAST: u32 = 0x5000_020f;

const BEYOND: u32 = 0x5000_03ef;

const OPEN: u32 = 0x6000_0003;

const END: u32 = 0x7000_0000;

// The text of the listing of the strip of these words.
fn listing(heap: Global, words: &[u32]) -> Result<String, AllocError> {
    let mut bytes = Vec::new(heap);
    for word in words {
        bytes.extend_from_slice(&word.to_be_bytes())?;
    }
    run_to_text(heap, bytes.as_slice())
}

#[test]
fn the_worked_strip_has_four_lines(rt: HostRuntime) -> Result<(), Fail> {
    let text = listing(rt.alloc(), &[HEAD, CELLS, 7, 9, 4, ORIGIN, EAST, OPEN, END])?;
    assert_eq!(rt;
        text.as_str(),
        "sheet gray 3 1\nmask 2 chords 1\nopen 64\n7 7 4\n"
    );
    Ok(())
}

#[test]
fn a_job_goes_on_after_a_refused_call(rt: HostRuntime) -> Result<(), Fail> {
    let text = listing(
        rt.alloc(),
        &[HEAD, CELLS, 7, 9, 4, OPEN, ORIGIN, EAST, OPEN, END],
    )?;
    assert_eq!(rt;
        text.as_str(),
        "sheet gray 3 1\nopen refused 10\nmask 2 chords 1\nopen 64\n7 7 4\n"
    );
    Ok(())
}

#[test]
fn a_mask_is_refused_at_the_word_of_its_first_far_point(rt: HostRuntime) -> Result<(), Fail> {
    let text = listing(
        rt.alloc(),
        &[HEAD, CELLS, 7, 9, 4, ORIGIN, BEYOND, BEYOND, OPEN, END],
    )?;
    assert_eq!(rt;
        text.as_str(),
        "sheet gray 3 1\nmask refused 8 word 6\nopen refused 10\n7 9 4\n"
    );
    Ok(())
}

#[test]
fn a_refused_mask_leaves_the_one_before(rt: HostRuntime) -> Result<(), Fail> {
    let text = listing(
        rt.alloc(),
        &[
            HEAD, CELLS, 7, 9, 4, ORIGIN, EAST, OPEN, BEYOND, ORIGIN, OPEN, ORIGIN, END,
        ],
    )?;
    assert_eq!(rt;
        text.as_str(),
        "sheet gray 3 1\nmask 2 chords 1\nopen 64\nmask refused 8 word 8\nopen 64\nmask 1 chords 1\n7 7 4\n"
    );
    Ok(())
}

#[test]
fn the_first_row_of_heights_is_listed_last(rt: HostRuntime) -> Result<(), Fail> {
    let text = listing(rt.alloc(), &[0x1200_1002, 0x2000_0002, 1, 0xffff_fffe, END])?;
    assert_eq!(rt; text.as_str(), "sheet height 1 2\n-2\n1\n");
    Ok(())
}

// The window's corner counts on what is shown below it, from the north.
#[test]
fn a_window_lies_over_south_up(rt: HostRuntime) -> Result<(), Fail> {
    let text = listing(
        rt.alloc(),
        &[
            0x1200_1002,
            0x2000_0002,
            1,
            2,
            0x3000_0000,
            0x4000_1001,
            END,
        ],
    )?;
    assert_eq!(rt; text.as_str(), "sheet height 1 1\n2\n");
    let text = listing(
        rt.alloc(),
        &[
            HEAD,
            CELLS,
            7,
            9,
            4,
            0x3000_1000,
            0x4000_2001,
            ORIGIN,
            EAST,
            OPEN,
            END,
        ],
    )?;
    assert_eq!(rt;
        text.as_str(),
        "sheet gray 2 1\nmask 2 chords 1\nopen 62\n4 4\n"
    );
    Ok(())
}

#[test]
fn a_sheet_without_cells_has_its_width(rt: HostRuntime) -> Result<(), Fail> {
    let text = listing(rt.alloc(), &[0x1100_5000, 0x2000_0000, END])?;
    assert_eq!(rt; text.as_str(), "sheet gray 5 0\n");
    let text = listing(rt.alloc(), &[0x1100_0005, 0x2000_0000, OPEN, END])?;
    assert_eq!(rt; text.as_str(), "sheet gray 0 0\nopen refused 9\n");
    Ok(())
}

#[test]
fn flags_and_returns_are_listed_by_their_words(rt: HostRuntime) -> Result<(), Fail> {
    let text = listing(rt.alloc(), &[0x1300_2001, 0x2000_0002, 255, 6, END])?;
    assert_eq!(rt; text.as_str(), "sheet flags 2 1\n255 6\n");
    let text = listing(
        rt.alloc(),
        &[
            0x1400_3001,
            0x2000_0003,
            0x8000_0000,
            0xbf80_0000,
            0x7f80_0000,
            END,
        ],
    )?;
    assert_eq!(rt;
        text.as_str(),
        "sheet return 3 1\n00000000 BF800000 7F800000\n"
    );
    Ok(())
}

#[test]
fn a_refused_strip_has_one_line(rt: HostRuntime) -> Result<(), Fail> {
    let text = listing(rt.alloc(), &[HEAD, CELLS, 7, 9, 4, 0x8000_0000])?;
    assert_eq!(rt; text.as_str(), "strip refused 3 word 5\n");
    Ok(())
}

#[test]
fn a_fault_has_number_layer_and_word(rt: HostRuntime) {
    let strip = JobFault::Strip(StripFault::At(Ground::NoCell, 5));
    assert_eq!(rt; strip.number(), 6);
    assert_eq!(rt; strip.layer(), Layer::Strip);
    assert_eq!(rt; strip.word(), Some(5));
    let mask = JobFault::Mask(PointsFault {
        fault: MaskFault::Beyond(1),
        word: 6,
    });
    assert_eq!(rt; mask.number(), 8);
    assert_eq!(rt; mask.layer(), Layer::Mask);
    assert_eq!(rt; mask.word(), Some(6));
    let call = JobFault::Worksheet(Refusal::NoMask);
    assert_eq!(rt; call.number(), 10);
    assert_eq!(rt; call.layer(), Layer::Worksheet);
    assert_eq!(rt; call.word(), None);
}
