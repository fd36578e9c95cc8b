// Jobs that are refused, each by its line.
use crate::input_fault;
use crate::job::{Job, WORDS};
use std::alloc::{AllocError, Global};
use std::test::Fail;
use texts::fault::ToldJobFault;
use texts::input::{InputFault, LinesFault};

// What is wrong with a job.
fn fault_of(heap: Global, text: &str) -> Result<String, AllocError> {
    let lines: Vec<String> = text
        .lines()
        .map(|line| String::from_str(heap, line))
        .try_collect(heap)?;
    match Job::read(heap, lines.as_slice()) {
        Ok(_) => String::from_str(heap, "nothing"),
        Err(fault) => {
            let told = ToldJobFault {
                fault,
                words: WORDS,
            };
            told.to_string(heap)
        }
    }
}

#[test]
fn a_job_that_cannot_be_read_is_told_by_its_line(rt: HostRuntime) -> Result<(), Fail> {
    let table = [
        (
            "sheet\n7\nmask\n@\nfore\n@\nback\no#\nlist 65536\n",
            "nothing",
        ),
        (
            "sheet\n7\nmask\n@\nback\no#\nfore\n@\nlist 4\n",
            "no line begins the back; a job has sheet, mask, fore, back and list, in this order",
        ),
        (
            "sheet\n7\nmask\n@\nfore\n@\nback\no#\nlist\n",
            "line 9: a list has a whole number of places, from 0 to 65536",
        ),
        (
            "sheet\n7\nmask\n@\nfore\n@\nback\no#\nlist 65537\n",
            "line 9: a list has a whole number of places, from 0 to 65536",
        ),
        (
            "sheet\n7\nmask\n@\nfore\n@\nback\no#\nlist 4 5\n",
            "line 9: a list has a whole number of places, from 0 to 65536",
        ),
        (
            "sheet\n7 2147483648\nmask\n@\nfore\n@\nback\no#\nlist 4\n",
            "line 2: a row of the sheet has whole numbers of millimetres, of 32 bits",
        ),
        (
            "sheet\n7\n8 9\nmask\n@\nfore\n@\nback\no#\nlist 4\n",
            "line 3: this row has not as many cells as the first",
        ),
        (
            "sheet\n7\nmask\n@\nfore\n##\nback\no#\nlist 4\n",
            "the origin is not marked, @ where it is a point and o where it is not",
        ),
        (
            "sheet\n7\nmask\n@\nfore\n@\nback\no#@\nlist 4\n",
            "line 8 column 3: the origin is marked a second time",
        ),
    ];
    for (text, wanted) in table {
        let fault = fault_of(rt.alloc(), text)?;
        assert_eq!(rt; fault.as_str(), wanted);
    }
    Ok(())
}

// What kept the lines of the input from being listed.
#[test]
fn lines_that_are_not_listed_have_their_line(rt: HostRuntime) -> Result<(), Fail> {
    let table = [
        (
            LinesFault::Reader(InputFault::Memory),
            "the listing cannot be written",
        ),
        (LinesFault::Line(InputFault::Memory), "the job is no text"),
        (LinesFault::Line(InputFault::NoText), "the job is no text"),
        (LinesFault::List, "there is not enough memory"),
    ];
    for (kept, wanted) in table {
        let told = ToldJobFault {
            fault: input_fault(kept),
            words: WORDS,
        };
        let line = told.to_string(rt.alloc())?;
        assert_eq!(rt; line.as_str(), wanted);
    }
    Ok(())
}
