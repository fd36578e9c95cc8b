// The lines of the input.
ghost use Rattle.std.specs.Prelude.{◌≡◌, All, IfOk};
ghost use Rattle.std.specs.IoError.{error_kind};
ghost use Rattle.texts.specs.Inputs.{LacksFeed, input_fault, fault_of};

use std::alloc::AllocFailed;
use std::io;
use std::io::{BufRead, BufReader, ErrorKind};

// Why the input gives no lines.
#[derive(Clone, Copy, PartialEq, Eq, Debug)]
pub enum InputFault {
    // It is no text.
    NoText,
    // It cannot be read.
    Unread,
    // There is no memory for it; this says nothing of the input.
    Memory,
}

impl From<io::Error> for InputFault {
    ghost from_gives = { λ e f. f ≡ input_fault (error_kind e) };

    fn from(error: io::Error) -> InputFault {
        match error.kind() {
            ErrorKind::OutOfMemory => InputFault::Memory,
            ErrorKind::InvalidData => InputFault::NoText,
            _ => InputFault::Unread,
        }
    }
}

// What kept the lines of the input from being listed.
#[derive(Clone, Copy, PartialEq, Eq, Debug)]
pub enum LinesFault {
    // There is no reader for the input.
    Reader(InputFault),
    // A line cannot be read.
    Line(InputFault),
    // There is no memory for the list, though there was for each line.
    List,
}

impl From<LinesFault> for InputFault {
    ghost from_gives = { λ f r. r ≡ fault_of f };

    fn from(fault: LinesFault) -> InputFault {
        match fault {
            LinesFault::Reader(why) | LinesFault::Line(why) => why,
            LinesFault::List => InputFault::Memory,
        }
    }
}

impl<T: Drop> From<AllocFailed<T>> for LinesFault {
    ghost use Rattle.texts.specs.declared.input.LinesFault.TheVariants.{List};

    ghost from_gives = { λ _ r. r ≡ List };

    fn from(_e: AllocFailed<T>) -> LinesFault {
        LinesFault::List
    }
}

// The lines of standard input, none of which has a line feed.
pub fn input_lines<R: Input + AllocGlobal>(rt: &R) -> Result<Vec<String>, InputFault>
    ensures { IfOk result (λ v. All LacksFeed v.items) }
{
    Ok(listed_lines(rt)?)
}

// The same, where it is told what kept them from being listed.
pub fn listed_lines<R: Input + AllocGlobal>(rt: &R) -> Result<Vec<String>, LinesFault>
    ensures { IfOk result (λ v. All LacksFeed v.items) }
{
    let reader = BufReader::new(rt.alloc(), rt.reader()).map_err(|e| LinesFault::Reader(
        InputFault::from(e),
    ))?;
    let mut lines = Vec::new(rt.alloc());
    for line in reader.lines(rt.alloc()) {
        match line {
            Ok(text) => lines.push(text)?,
            Err(e) => return Err(LinesFault::Line(InputFault::from(e))),
        }
    }
    Ok(lines)
}
