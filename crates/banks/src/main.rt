// Smooths a grid of heights halfway between opening and closing, and finds where one shape stands above another.
#![tactic(auto)]

// A job as text.
mod job;

// A job, run and listed step by step.
mod listing;

use job::{Job, WORDS};
use listing::Listing;
use std::process::ExitCode;
use texts::ending::ended;
use texts::fault::JobFault;
use texts::input::{InputFault, LinesFault, listed_lines};

fn main(rt: HostRuntime) -> ExitCode {
    ended(&rt, WORDS, run(&rt))
}

// Reads a job from standard input, runs it and lists what it did.
fn run(rt: &HostRuntime) -> Result<(), JobFault> {
    let lines = listed_lines(rt).map_err(input_fault)?;
    let job = Job::read(rt.alloc(), lines.as_slice())?;
    Listing { rt, job: &job }.print()
}

// What is told where the lines of the input cannot be listed. Without a reader for them no listing is written, and a line
// that there is no memory for is told as one that is no text.
fn input_fault(fault: LinesFault) -> JobFault {
    match fault {
        LinesFault::Reader(_) => JobFault::Unwritten,
        LinesFault::Line(_) => JobFault::Input(InputFault::Unread),
        LinesFault::List => JobFault::Memory,
    }
}

#[cfg(test)]
mod tests;
