// Plans a mask: reads a drawing, and says what filters under it cost on a sheet of a given size.
#![tactic(auto)]

// The costs, as values.
mod plan;

// The plan as text.
mod listing;

use drawings::drawing::Drawing;
use drawings::drawn::mask_of;
use listing::Listing;
use sheets::holder::Size;
use std::env;
use std::process::ExitCode;
use texts::ending::ended;
use texts::fault::{JobFault, Words};
use texts::input::{InputFault, LinesFault, listed_lines};
use texts::size::sized;

// What the program's arguments are.
const USAGE: &str = "usage: maskplan WIDTH HEIGHT, with a drawing on standard input";

// What is told where the first is no size.
const WIDTH_RULE: &str = "the width is not a whole number from 1 to 2048";

// What is told where the second is none.
const HEIGHT_RULE: &str = "the height is not a whole number from 1 to 2048";

// The words for what is wrong. A drawing alone has no parts and no cells. A plan that cannot be written has the line of a
// drawing that is no text.
const WORDS: Words = Words {
    program: "maskplan",
    parts: None,
    cells: None,
    no_text: "the drawing is no text",
    unread: "the drawing is no text",
    unwritten: "the drawing is no text",
};

fn main(rt: HostRuntime) -> ExitCode {
    ended(&rt, WORDS, run(&rt))
}

// Reads the size from the arguments and the drawing from standard input, and prints each step.
fn run(rt: &HostRuntime) -> Result<(), JobFault> {
    let size = size(rt)?;
    let lines = listed_lines(rt).map_err(input_fault)?;
    let drawing = Drawing::read(rt.alloc(), lines.as_slice())?;
    let mask = mask_of(&drawing)?;
    let listing = Listing {
        rt,
        drawing: &drawing,
        mask: &mask,
        size,
    };
    Ok(listing.print()?)
}

// The two arguments, the sheet's width and height. Arguments that cannot be read are told as input is.
fn size(rt: &HostRuntime) -> Result<Size, JobFault> {
    let words = env::args(rt).map_err(|_| InputFault::Unread)?;
    let words: Vec<String> = words.collect(rt.alloc())?;
    let [_, width, height] = words.as_slice() else {
        return Err(JobFault::Arguments(USAGE));
    };
    Ok(sized(Size {
        width: number_of(width.as_str(), WIDTH_RULE)?,
        height: number_of(height.as_str(), HEIGHT_RULE)?,
    })?)
}

// What is told where the lines of the input cannot be listed. Want of memory for one of them, or for their reader, is told as
// input that is no text.
fn input_fault(fault: LinesFault) -> JobFault {
    match fault {
        LinesFault::Reader(_) | LinesFault::Line(_) => JobFault::Input(InputFault::Unread),
        LinesFault::List => JobFault::Memory,
    }
}

// The number that an argument is, where it is one.
fn number_of(word: &str, rule: &'static str) -> Result<usize, JobFault> {
    word.parse::<usize>().map_err(|_| JobFault::Arguments(rule))
}

#[cfg(test)]
mod tests;
