// Runs the strip of a job from standard input, and prints its listing.
#![tactic(auto)]

use jobs::run::run_to_text;
use std::io::Read;
use std::process::ExitCode;
use texts::ending::ended;
use texts::fault::{JobFault, Words};
use texts::input::InputFault;

// The words for what keeps a job from being run. A strip has no parts in lines, and is told of by its listing.
const WORDS: Words = Words {
    program: "platrun",
    parts: None,
    cells: None,
    no_text: "the strip cannot be read",
    unread: "the strip cannot be read",
    unwritten: "the listing cannot be written",
};

fn main(rt: HostRuntime) -> ExitCode {
    ended(&rt, WORDS, run(&rt))
}

// Reads a strip and runs its job; then prints the listing. A strip that is refused is listed, too.
fn run(rt: &HostRuntime) -> Result<(), JobFault> {
    let bytes = input(rt)?;
    let listing = run_to_text(rt.alloc(), bytes.as_slice())?;
    print!(rt; "{listing}")?;
    Ok(())
}

// The bytes of standard input.
fn input(rt: &HostRuntime) -> Result<Vec<u8>, InputFault> {
    let mut bytes = Vec::new(rt.alloc());
    rt.reader().read_to_end(&mut bytes)?;
    Ok(bytes)
}

#[cfg(test)]
mod tests;
