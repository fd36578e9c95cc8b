// How a program ends.
ghost use Rattle.std.specs.Prelude.{◌≡◌, if◌then◌else◌, is_ok};
ghost use Rattle.std.specs.Process.{exit_status};

use crate::fault::{JobFault, ToldJobFault, Words};
use std::process::ExitCode;

// The status of a program: 0, or 1 where a fault kept it from its work, which is told on standard error in its words.
pub fn ended<R: Eprint>(rt: &R, words: Words, outcome: Result<(), JobFault>) -> ExitCode
    ensures { exit_status result ≡ (if is_ok outcome then 0 else 1) }
{
    match outcome {
        Ok(()) => ExitCode::SUCCESS,
        Err(fault) => {
            let _ = eprintln!(rt; "{}: {}", words.program, ToldJobFault { fault, words });
            ExitCode::FAILURE
        }
    }
}
