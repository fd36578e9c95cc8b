// Lists the jobs of many strips, which are written as text, and then tells what holds on either side of each limit.
#![tactic(auto)]

// Strips as text.
mod cases;

// Either side of each limit.
mod limits;

use jobs::run::run;
use std::io;
use std::io::{BufRead, BufReader};

fn main(rt: HostRuntime) -> anyhow::Result<()> {
    let alloc = rt.alloc();
    let lines = BufReader::new(alloc, rt.reader())?.lines(alloc);
    for (before, line) in lines.filter(has_case).enumerate() {
        let text = line?;
        let number = before.saturating_add(1);
        println!(rt; "strip {number}")?;
        list(&rt, text.as_str())?;
    }
    limits::tell(&rt)
}

// Whether the line has a strip. One that cannot be read is kept, and ends the listing in its place.
fn has_case(line: &io::Result<String>) -> bool {
    line.as_ref()
        .map_or(true, |text| cases::is_case(text.as_str()))
}

// Lists the job of a strip that is written as text.
fn list(rt: &HostRuntime, text: &str) -> anyhow::Result<()> {
    let bytes = cases::read_case(rt.alloc(), text)?;
    for line in run(rt.alloc(), bytes.as_slice())?.iter() {
        println!(rt; "{line}")?;
    }
    Ok(())
}

#[cfg(test)]
mod tests;
