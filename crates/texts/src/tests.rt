// The line that each program tells of a fault, for each ground once.
use crate::ending::ended;
use crate::fault::{JobFault, ToldJobFault, Words};
use crate::input::InputFault;
use crate::line::{Line, drawn_lines, numbered};
use crate::mask::read_mask;
use crate::part::{Missing, Part};
use crate::sheet::{SheetFault, read_rows, read_sheet};
use crate::size::WrongSize;
use crate::view::Lines;
use drawings::drawing::{DrawingFault, Place};
use drawings::drawn::DrawnFault;
use masks::fault::MaskFault;
use masks::point::Point;
use sheets::holder::Size;
use std::alloc::{AllocError, Global};
use std::cell::RefCell;
use std::fmt::Write;
use std::test::Fail;
use std::{fmt, io};

// The words of a program whose jobs have parts and a sheet.
const WITH_PARTS: Words = Words {
    program: "sheets",
    parts: Some("sheet and mask"),
    cells: Some("whole numbers"),
    no_text: "the job is no text",
    unread: "the job cannot be read",
    unwritten: "the listing cannot be written",
};

// Those of a program that has neither.
const WITHOUT: Words = Words {
    program: "masks",
    parts: None,
    cells: None,
    no_text: "the drawing is no text",
    unread: "the drawing cannot be read",
    unwritten: "the plan cannot be written",
};

const WIDE: Size = Size {
    width: 2049,
    height: 1,
};

const AT: Place = Place { line: 4, column: 2 };

// Every ground, with the line of either program.
const LINES: [(JobFault, &str, &str); 16] = [
    (
        JobFault::Arguments("usage: masks WIDTH"),
        "usage: masks WIDTH",
        "usage: masks WIDTH",
    ),
    (
        JobFault::Missing(Missing(Part::Heading("mask"))),
        "no line begins the mask; a job has sheet and mask, in this order",
        "no line begins the mask",
    ),
    (
        JobFault::Missing(Missing(Part::Setting("list"))),
        "no line begins the list; a job has sheet and mask, in this order",
        "no line begins the list",
    ),
    (
        JobFault::Sheet(SheetFault::NoCell(3)),
        "line 3: a row of the sheet has whole numbers",
        "line 3: a word is no cell",
    ),
    (
        JobFault::Sheet(SheetFault::UnlikeRow(12)),
        "line 12: this row has not as many cells as the first",
        "line 12: this row has not as many cells as the first",
    ),
    (
        JobFault::Sheet(SheetFault::WrongSize(WrongSize(WIDE))),
        "refused 9: the sheet is 2049 by 1; each goes from 1 to 2048",
        "refused 9: the sheet is 2049 by 1; each goes from 1 to 2048",
    ),
    (
        JobFault::Sheet(SheetFault::Memory),
        "there is not enough memory",
        "there is not enough memory",
    ),
    (
        JobFault::Drawn(DrawnFault::Unread(DrawingFault::OtherCharacter(AT))),
        "line 4 column 2: a drawing has only # . @ and o",
        "line 4 column 2: a drawing has only # . @ and o",
    ),
    (
        JobFault::Drawn(DrawnFault::Unread(DrawingFault::NoOrigin)),
        "the origin is not marked, @ where it is a point and o where it is not",
        "the origin is not marked, @ where it is a point and o where it is not",
    ),
    (
        JobFault::Drawn(DrawnFault::Unread(DrawingFault::SecondOrigin(AT))),
        "line 4 column 2: the origin is marked a second time",
        "line 4 column 2: the origin is marked a second time",
    ),
    (
        JobFault::Drawn(DrawnFault::Refused(MaskFault::NoPoints, None)),
        "refused 7: the drawing has no point",
        "refused 7: the drawing has no point",
    ),
    (
        JobFault::Drawn(DrawnFault::Refused(MaskFault::Beyond(1), Some(AT))),
        "refused 8: line 4 column 2: the point lies more than 15 from the origin",
        "refused 8: line 4 column 2: the point lies more than 15 from the origin",
    ),
    (
        JobFault::NotAs {
            line: 7,
            rule: "a list has a whole number of places",
        },
        "line 7: a list has a whole number of places",
        "line 7: a list has a whole number of places",
    ),
    (
        JobFault::Input(InputFault::NoText),
        "the job is no text",
        "the drawing is no text",
    ),
    (
        JobFault::Input(InputFault::Unread),
        "the job cannot be read",
        "the drawing cannot be read",
    ),
    (
        JobFault::Unwritten,
        "the listing cannot be written",
        "the plan cannot be written",
    ),
];

#[test]
fn each_fault_has_its_line(rt: HostRuntime) -> Result<(), Fail> {
    for (fault, wanted, without) in LINES {
        let told = ToldJobFault {
            fault,
            words: WITH_PARTS,
        };
        let line = told.to_string(rt.alloc())?;
        assert_eq!(rt; line.as_str(), wanted);
        let told = ToldJobFault {
            fault,
            words: WITHOUT,
        };
        let line = told.to_string(rt.alloc())?;
        assert_eq!(rt; line.as_str(), without);
    }
    Ok(())
}

// Want of memory has one line, wherever it was.
#[test]
fn want_of_memory_has_one_line(rt: HostRuntime) -> Result<(), Fail> {
    let wants = [
        JobFault::Memory,
        JobFault::Input(InputFault::Memory),
        JobFault::Sheet(SheetFault::Memory),
        JobFault::Drawn(DrawnFault::Unread(DrawingFault::Memory)),
    ];
    for fault in wants {
        let told = ToldJobFault {
            fault,
            words: WITH_PARTS,
        };
        let line = told.to_string(rt.alloc())?;
        assert_eq!(rt; line.as_str(), "there is not enough memory");
    }
    Ok(())
}

// A fault that is told by itself has the line of a program without words for cells.
#[test]
fn a_sheet_fault_has_its_line(rt: HostRuntime) -> Result<(), Fail> {
    let lines = [
        (SheetFault::NoCell(3), "line 3: a word is no cell"),
        (
            SheetFault::UnlikeRow(4),
            "line 4: this row has not as many cells as the first",
        ),
        (
            SheetFault::WrongSize(WrongSize(WIDE)),
            "refused 9: the sheet is 2049 by 1; each goes from 1 to 2048",
        ),
        (SheetFault::Memory, "there is not enough memory"),
    ];
    for (fault, wanted) in lines {
        let line = fault.to_string(rt.alloc())?;
        assert_eq!(rt; line.as_str(), wanted);
    }
    Ok(())
}

// The value of a setting is the one word behind the first.
#[test]
fn a_setting_has_one_value(rt: HostRuntime) {
    let values: [(&str, Option<usize>); 6] = [
        ("list 3", Some(3)),
        ("  list   0003  ", Some(3)),
        ("list", None),
        ("list 3 4", None),
        ("list three", None),
        ("", None),
    ];
    for (text, wanted) in values {
        let line = Line { number: 1, text };
        assert_eq!(rt; line.value::<usize>(), wanted);
    }
}

// The lines of a text.
fn lines_of(heap: Global, text: &str) -> Result<Vec<String>, AllocError> {
    text.lines()
        .map(|line| String::from_str(heap, line))
        .try_collect(heap)
}

// Rows are read behind the cells that are there, blank lines are passed over, and no row is no fault.
#[test]
fn rows_are_read_behind_what_is_there(rt: HostRuntime) -> Result<(), Fail> {
    let texts = lines_of(rt.alloc(), "7 8\n\n-9 10\n")?;
    let mut cells: Vec<i32> = Vec::new(rt.alloc());
    cells.push(1)?;
    let size = read_rows(Lines::of(texts.as_slice()), &mut cells);
    let two = Size {
        width: 2,
        height: 2,
    };
    assert_eq!(rt; size, Ok(two));
    assert_eq!(rt; cells.as_slice(), [1, 7, 8, -9, 10].as_slice());
    let none = read_rows(Lines::of(&[]), &mut cells);
    assert_eq!(rt; none, Ok(Size::NONE));
    assert_eq!(rt; cells.len(), 5);
    Ok(())
}

// The cells that are there stay, whatever is wrong with the rows.
#[test]
fn cells_stay_where_rows_are_refused(rt: HostRuntime) -> Result<(), Fail> {
    let table = [
        ("7\n8 x\n", SheetFault::NoCell(2)),
        ("7\n8 9\n", SheetFault::UnlikeRow(2)),
    ];
    for (text, wanted) in table {
        let texts = lines_of(rt.alloc(), text)?;
        let mut cells: Vec<i32> = Vec::new(rt.alloc());
        cells.push(1)?;
        cells.push(2)?;
        let refused = read_rows(Lines::of(texts.as_slice()), &mut cells);
        assert_eq!(rt; refused, Err(wanted));
        assert_eq!(rt; &cells.as_slice()[..2], [1, 2].as_slice());
    }
    Ok(())
}

// A part may have any word, and the lines around it keep their numbers.
#[test]
fn lines_around_a_part_keep_their_numbers(rt: HostRuntime) -> Result<(), Fail> {
    let texts = lines_of(rt.alloc(), "a b\n  a\nc\n")?;
    let word = String::from_str(rt.alloc(), "a")?;
    let part = Part::Heading(word.as_str());
    let lines = Lines::of(texts.as_slice());
    let Ok((before, line, behind)) = part.cut_in(lines) else {
        assert!(rt; false);
        return Ok(());
    };
    assert_eq!(rt; (before.len(), line.number, behind.len()), (1, 2, 1));
    assert_eq!(rt; behind.get(0).map(|l| (l.number, l.text)), Some((3, "c")));
    assert!(rt; behind.get(1).is_none());
    let missing = part.cut_in(behind).map(|_| ());
    assert_eq!(rt; missing, Err(Missing(part)));
    Ok(())
}

// Whether a line begins a part is told by the words that are there, and by no more of them than tell it.
#[test]
fn a_heading_stands_alone_and_a_setting_first(rt: HostRuntime) {
    let heading = Part::Heading("a");
    let setting = Part::Setting("a");
    let lines = [
        ("a", true, true),
        ("  a ", true, true),
        ("a b", false, true),
        ("b a", false, false),
        ("ab", false, false),
        ("", false, false),
    ];
    for (line, alone, first) in lines {
        assert_eq!(rt; heading.begins(line), alone);
        assert_eq!(rt; setting.begins(line), first);
        assert_eq!(rt; heading.is_begun_by(line), alone);
        assert_eq!(rt; setting.is_begun_by(line), first);
    }
}

// The lines of a job can be listed: its parts are cut off, and its sheet and its mask are read.
#[test]
fn listed_lines_are_read(rt: HostRuntime) -> Result<(), Fail> {
    let texts = lines_of(rt.alloc(), "a sheet\n sheet\n7 8\n\n-9 10\nmask\n@#\n")?;
    let lines = numbered(rt.alloc(), texts.as_slice())?;
    let sheet = Part::Heading("sheet");
    let mask = Part::Heading("mask");
    let Ok((before, line, rest)) = sheet.cut(lines.as_slice()) else {
        assert!(rt; false);
        return Ok(());
    };
    assert_eq!(rt; (before.len(), line.number, rest.len()), (1, 2, 5));
    let Ok((rows, line, drawn)) = mask.cut(rest) else {
        assert!(rt; false);
        return Ok(());
    };
    assert_eq!(rt; (rows.len(), line.number, drawn.len()), (3, 6, 1));
    assert_eq!(rt; sheet.cut(drawn).map(|_| ()), Err(Missing(sheet)));
    let Ok((size, cells)) = read_sheet::<i32>(rt.alloc(), rows) else {
        assert!(rt; false);
        return Ok(());
    };
    assert_eq!(rt; (size.width, size.height), (2, 2));
    assert_eq!(rt; cells.as_slice(), [7, 8, -9, 10].as_slice());
    let Ok(mask) = read_mask(rt.alloc(), drawn) else {
        assert!(rt; false);
        return Ok(());
    };
    assert_eq!(rt; mask.count(), 2);
    assert!(rt; mask.holds(Point { u: 1, v: 0 }));
    Ok(())
}

// What is wrong with the rows of listed lines is told by their own numbers, which need not follow each other; what is wrong with
// a drawing, by the lines from the first on.
#[test]
fn listed_lines_are_told_by_their_numbers(rt: HostRuntime) -> Result<(), Fail> {
    let two = Line {
        number: 4,
        text: "1 2",
    };
    let one = Line {
        number: 7,
        text: "3",
    };
    let other = Line {
        number: 9,
        text: "5 x",
    };
    let unlike = read_sheet::<i32>(rt.alloc(), &[two, one]).map(|_| ());
    assert_eq!(rt; unlike, Err(SheetFault::UnlikeRow(7)));
    let no_cell = read_sheet::<i32>(rt.alloc(), &[two, other]).map(|_| ());
    assert_eq!(rt; no_cell, Err(SheetFault::NoCell(9)));
    let drawn = drawn_lines(rt.alloc(), &[two, other])?;
    assert_eq!(rt; drawn.len(), 5);
    assert_eq!(rt; drawn[2].as_str(), "");
    assert_eq!(rt; drawn[3].as_str(), "1 2");
    assert_eq!(rt; drawn[4].as_str(), "5 x");
    let undrawn = read_mask(rt.alloc(), &[two]).map(|_| ());
    let place = Place { line: 4, column: 1 };
    let fault = DrawnFault::Unread(DrawingFault::OtherCharacter(place));
    assert_eq!(rt; undrawn, Err(JobFault::Drawn(fault)));
    let origin = Line {
        number: 4,
        text: "@",
    };
    let undrawn = read_mask(rt.alloc(), &[origin, other]).map(|_| ());
    let place = Place { line: 5, column: 1 };
    let fault = DrawnFault::Unread(DrawingFault::OtherCharacter(place));
    assert_eq!(rt; undrawn, Err(JobFault::Drawn(fault)));
    Ok(())
}

// Keeps what is printed on standard error.
#[derive(Drop)]
struct Kept {
    text: RefCell<String>,
}

impl Eprint for Kept {
    fn eprint<D: fmt::Display + Drop>(&self, value: D) -> io::Result<()> {
        if let Ok(mut text) = self.text.try_borrow_mut() {
            let _ = write!(text, "{value}");
        }
        Ok(())
    }

    fn eprintln<D: fmt::Display + Drop>(&self, value: D) -> io::Result<()> {
        if let Ok(mut text) = self.text.try_borrow_mut() {
            let _ = writeln!(text, "{value}");
        }
        Ok(())
    }
}

// What a program that ends so prints on standard error.
fn printed(heap: Global, outcome: Result<(), JobFault>) -> String {
    let kept = Kept {
        text: RefCell::new(String::new(heap)),
    };
    let _ = ended(&kept, WITH_PARTS, outcome);
    kept.text.into_inner()
}

// One line: the program's name, and the fault.
#[test]
fn a_program_that_fails_prints_one_line(rt: HostRuntime) {
    let line = printed(
        rt.alloc(),
        Err(JobFault::Missing(Missing(Part::Heading("mask")))),
    );
    assert_eq!(rt;
        line.as_str(),
        "sheets: no line begins the mask; a job has sheet and mask, in this order\n"
    );
    let nothing = printed(rt.alloc(), Ok(()));
    assert_eq!(rt; nothing.as_str(), "");
}
