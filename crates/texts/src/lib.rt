// Jobs that are written as text: how their lines are read, and how what became of them is told.
#![tactic(auto)]

// The lines of the input.
pub mod input;

// Lines of a job that follow each other.
pub mod view;

// A line of a job.
pub mod line;

// The parts of a job, each begun by a line.
pub mod part;

// The sheet of a job.
pub mod sheet;

// The masks of a job.
pub mod mask;

// The sizes of sheets that the filters take.
pub mod size;

// What filters answer and leave, as listings tell it.
pub mod told;

// What can keep a program from its work, and the line that says so.
pub mod fault;

// How a program ends.
pub mod ending;
#[cfg(test)]
mod tests;
