// Opens and closes a gray sheet as a job says, and tells which sheets that makes, which of them stands, and why.
#![tactic(auto)]

// A job as text.
mod job;

// A list of calls on the sheet and on its threshold.
mod outcome;

// Sheets under their names.
mod album;

// What is told of a job, as values.
mod report;

// The words for sheets.
mod names;

// The report as text.
mod listing;

use job::{Job, WORDS};
use listing::Listing;
use report::Report;
use std::process::ExitCode;
use texts::ending::ended;
use texts::fault::JobFault;
use texts::input::input_lines;

fn main(rt: HostRuntime) -> ExitCode {
    ended(&rt, WORDS, run(&rt))
}

// Reads a job from standard input and runs it; then lists what it did.
fn run(rt: &HostRuntime) -> Result<(), JobFault> {
    let lines = input_lines(rt)?;
    let job = Job::read(rt.alloc(), lines.as_slice())?;
    let report = Report::of(rt.alloc(), &job)?;
    let listing = Listing {
        rt,
        job: &job,
        report: &report,
    };
    Ok(listing.print()?)
}

#[cfg(test)]
mod tests;
