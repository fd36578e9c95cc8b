// The strip of a job: a sheet and the calls on it, as bytes.
#![tactic(auto)]

// A strip's bytes, four to a word.
mod words;

// The kinds of cell, by the number that a head gives.
pub mod kind;

// What a word with a kind says.
pub mod item;

// Why a strip is refused.
pub mod fault;

// The parts of a job.
pub mod parts;

// A strip that is being read, word by word.
mod strip;

// A job, read from its strip.
pub mod job;

// The reader of strips.
pub mod reader;
// The law of strips, as the promise of a call.
pub mod laws;

// A worked example of the layout.
pub mod examples;
#[cfg(test)]
mod tests;
