// The lines for arguments that are no size, and the words for what else is wrong.
use crate::{HEIGHT_RULE, USAGE, WIDTH_RULE, WORDS, input_fault, number_of};
use drawings::drawing::DrawingFault;
use drawings::drawn::DrawnFault;
use sheets::holder::Size;
use std::test::Fail;
use texts::fault::{JobFault, ToldJobFault};
use texts::input::{InputFault, LinesFault};
use texts::size::sized;

#[test]
fn an_argument_that_is_no_number_is_told_by_its_rule(rt: HostRuntime) {
    assert_eq!(rt; number_of("640", WIDTH_RULE), Ok(640));
    for word in ["", "-1", "6x", "1.5", "18446744073709551616"] {
        assert_eq!(rt;
            number_of(word, WIDTH_RULE),
            Err(JobFault::Arguments(WIDTH_RULE))
        );
    }
}

#[test]
fn each_fault_has_its_line(rt: HostRuntime) -> Result<(), Fail> {
    let wide = Size {
        width: 2049,
        height: 1,
    };
    let table = [
        (
            JobFault::Arguments(USAGE),
            "usage: maskplan WIDTH HEIGHT, with a drawing on standard input",
        ),
        (
            JobFault::Arguments(WIDTH_RULE),
            "the width is not a whole number from 1 to 2048",
        ),
        (
            JobFault::Arguments(HEIGHT_RULE),
            "the height is not a whole number from 1 to 2048",
        ),
        (
            JobFault::Input(InputFault::NoText),
            "the drawing is no text",
        ),
        (
            JobFault::Input(InputFault::Unread),
            "the drawing is no text",
        ),
        (
            JobFault::Drawn(DrawnFault::Unread(DrawingFault::NoOrigin)),
            "the origin is not marked, @ where it is a point and o where it is not",
        ),
        (JobFault::Unwritten, "the drawing is no text"),
        (JobFault::Memory, "there is not enough memory"),
    ];
    for (fault, wanted) in table {
        let told = ToldJobFault {
            fault,
            words: WORDS,
        };
        let line = told.to_string(rt.alloc())?;
        assert_eq!(rt; line.as_str(), wanted);
    }
    let Err(refused) = sized(wide) else {
        assert!(rt; false);
        return Ok(());
    };
    let told = ToldJobFault {
        fault: JobFault::from(refused),
        words: WORDS,
    };
    let line = told.to_string(rt.alloc())?;
    assert_eq!(rt;
        line.as_str(),
        "refused 9: the sheet is 2049 by 1; each goes from 1 to 2048"
    );
    Ok(())
}

// What kept the lines of the input from being listed.
#[test]
fn lines_that_are_not_listed_have_their_line(rt: HostRuntime) -> Result<(), Fail> {
    let table = [
        (
            LinesFault::Reader(InputFault::Memory),
            "the drawing is no text",
        ),
        (
            LinesFault::Line(InputFault::Memory),
            "the drawing is no text",
        ),
        (
            LinesFault::Line(InputFault::NoText),
            "the drawing is no text",
        ),
        (LinesFault::List, "there is not enough memory"),
    ];
    for (kept, wanted) in table {
        let told = ToldJobFault {
            fault: input_fault(kept),
            words: WORDS,
        };
        let line = told.to_string(rt.alloc())?;
        assert_eq!(rt; line.as_str(), wanted);
    }
    Ok(())
}
