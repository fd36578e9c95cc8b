// Jobs that are refused, each by its line, and a job whose four sheets are different.
use crate::album::Album;
use crate::job::{Job, WORDS};
use crate::report::Report;
use cells::gray::Gray;
use morphology::standing::{Sort, Standing};
use std::alloc::{AllocError, Global};
use std::process::Abort;
use std::test::Fail;
use texts::fault::ToldJobFault;

// The lines of a text.
fn lines_of(heap: Global, text: &str) -> Result<Vec<String>, AllocError> {
    text.lines()
        .map(|line| String::from_str(heap, line))
        .try_collect(heap)
}

// What is wrong with a job.
fn fault_of(heap: Global, text: &str) -> Result<String, AllocError> {
    let lines = lines_of(heap, text)?;
    match Job::read(heap, lines.as_slice()) {
        Ok(_) => String::from_str(heap, "nothing"),
        Err(fault) => {
            let told = ToldJobFault {
                fault,
                words: WORDS,
            };
            told.to_string(heap)
        }
    }
}

#[test]
fn a_part_that_is_missing_is_told_by_its_word(rt: HostRuntime) -> Result<(), Fail> {
    let table = [
        ("sheet\n7\nmask\n@\nthreshold 1\ncalls\n", "nothing"),
        (
            "",
            "no line begins the sheet; a job has sheet, mask, threshold and calls, in this order",
        ),
        (
            "sheet\n7\nthreshold 1\nmask\n@\ncalls\n",
            "no line begins the threshold; a job has sheet, mask, threshold and calls, in this order",
        ),
    ];
    for (text, wanted) in table {
        let fault = fault_of(rt.alloc(), text)?;
        assert_eq!(rt; fault.as_str(), wanted);
    }
    Ok(())
}

#[test]
fn a_sheet_that_cannot_be_read_is_told_by_its_line(rt: HostRuntime) -> Result<(), Fail> {
    let table = [
        (
            "sheet\n\n7 8\n9\nmask\n@\nthreshold 1\ncalls\n",
            "line 4: this row has not as many cells as the first",
        ),
        (
            "sheet\n7 256\nmask\n@\nthreshold 1\ncalls\n",
            "line 2: a row of the sheet has whole numbers from 0 to 255",
        ),
        (
            "sheet\nmask\n@\nthreshold 1\ncalls\n",
            "refused 9: the sheet is 0 by 0; each goes from 1 to 2048",
        ),
    ];
    for (text, wanted) in table {
        let fault = fault_of(rt.alloc(), text)?;
        assert_eq!(rt; fault.as_str(), wanted);
    }
    Ok(())
}

#[test]
fn a_mask_that_cannot_be_made_is_told_by_its_drawing(rt: HostRuntime) -> Result<(), Fail> {
    let table = [
        (
            "sheet\n7\nmask\nthreshold 1\ncalls\n",
            "the origin is not marked, @ where it is a point and o where it is not",
        ),
        (
            "sheet\n7\nmask\no\nthreshold 1\ncalls\n",
            "refused 7: the drawing has no point",
        ),
        (
            "sheet\n7\nmask\n@x\nthreshold 1\ncalls\n",
            "line 4 column 2: a drawing has only # . @ and o",
        ),
        (
            "sheet\n7\nmask\n@..............##\nthreshold 1\ncalls\n",
            "refused 8: line 4 column 17: the point lies more than 15 from the origin",
        ),
    ];
    for (text, wanted) in table {
        let fault = fault_of(rt.alloc(), text)?;
        assert_eq!(rt; fault.as_str(), wanted);
    }
    Ok(())
}

#[test]
fn a_threshold_or_a_call_that_cannot_be_read_is_told_by_its_line(
    rt: HostRuntime,
) -> Result<(), Fail> {
    let table = [
        (
            "sheet\n7\nmask\n@\nthreshold 0\ncalls\n",
            "line 5: a threshold is a whole number from 1 to 255",
        ),
        (
            "sheet\n7\nmask\n@\nthreshold 256\ncalls\n",
            "line 5: a threshold is a whole number from 1 to 255",
        ),
        (
            "sheet\n7\nmask\n@\nthreshold 1\ncalls\nopen\nerode\n",
            "line 8: a call is open or close, and perhaps the cells of its table",
        ),
        (
            "sheet\n7\nmask\n@\nthreshold 1\ncalls\nopen 66 cells\n",
            "line 7: a call is open or close, and perhaps the cells of its table",
        ),
    ];
    for (text, wanted) in table {
        let fault = fault_of(rt.alloc(), text)?;
        assert_eq!(rt; fault.as_str(), wanted);
    }
    Ok(())
}

// The filters take a sheet 2,048 wide, and none that is wider.
#[test]
fn a_sheet_2049_wide_is_refused(rt: HostRuntime) -> Result<(), Fail> {
    let mut text = String::from_str(rt.alloc(), "sheet\n")?;
    for _ in 0..2048 {
        text.push_str("1 ")?;
    }
    let mut wider = text.clone()?;
    wider.push_str("1")?;
    let rest = "\nmask\n@\nthreshold 1\ncalls\n";
    text.push_str(rest)?;
    wider.push_str(rest)?;
    let fault = fault_of(rt.alloc(), text.as_str())?;
    assert_eq!(rt; fault.as_str(), "nothing");
    let fault = fault_of(rt.alloc(), wider.as_str())?;
    assert_eq!(rt;
        fault.as_str(),
        "refused 9: the sheet is 2049 by 1; each goes from 1 to 2048"
    );
    Ok(())
}

// Holds a picture of an album to the cells that are wanted.
fn shows(rt: &impl Abort, album: &Album, name: Standing, wanted: [u8; 20]) {
    let Some(picture) = album.named(name) else {
        assert!(rt; false);
        return;
    };
    let cells = picture.cells.as_slice();
    assert_eq!(rt; cells.len(), 20);
    for (cell, level) in cells.iter().zip(&wanted) {
        assert_eq!(rt; *cell, Gray(*level));
    }
}

// The bend of docs/EXAMPLES.md.
#[test]
fn a_bend_has_four_sheets(rt: HostRuntime) -> Result<(), Fail> {
    let heap = rt.alloc();
    let lines = lines_of(
        heap,
        "sheet\n5 5 5 5 2\n5 5 2 5 5\n2 2 2 5 5\n2 2 2 2 8\nmask\n@#\n##\nthreshold 5\ncalls\nopen\nclose\n",
    )?;
    let job = Job::read(heap, lines.as_slice())?;
    let report = Report::of(heap, &job)?;
    assert_eq!(rt; report.accepted(), 2);
    assert_eq!(rt; report.shown.different(), 3);
    assert_eq!(rt; report.families.len(), 1);
    let sheets = &report.families[0].sheets;
    assert_eq!(rt; sheets.different(), 4);
    shows(
        &rt,
        sheets,
        Standing::Once(Sort::Opening),
        [5, 5, 2, 2, 2, 5, 5, 2, 5, 5, 2, 2, 2, 5, 5, 2, 2, 2, 2, 8],
    );
    shows(
        &rt,
        sheets,
        Standing::Twice(Sort::Opening),
        [5, 5, 2, 2, 2, 5, 5, 5, 5, 5, 2, 2, 2, 5, 5, 2, 2, 2, 5, 8],
    );
    shows(
        &rt,
        sheets,
        Standing::Thrice(Sort::Opening),
        [5, 5, 2, 2, 2, 5, 5, 2, 5, 5, 2, 2, 2, 5, 5, 2, 2, 2, 5, 8],
    );
    Ok(())
}

#[test]
fn without_calls_the_loaded_sheet_stands(rt: HostRuntime) -> Result<(), Fail> {
    let heap = rt.alloc();
    let lines = lines_of(heap, "sheet\n7\nmask\n@\nthreshold 1\ncalls\n")?;
    let job = Job::read(heap, lines.as_slice())?;
    let report = Report::of(heap, &job)?;
    assert_eq!(rt; report.steps.len(), 0);
    assert!(rt; report.standing == Standing::Loaded);
    assert_eq!(rt; report.families.len(), 2);
    Ok(())
}
