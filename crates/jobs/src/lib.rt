// Jobs: what a strip tells is done, and listed line by line.
#![tactic(auto)]

// Why a job, or a step of it, is refused.
pub mod fault;

// The one word by which a cell is listed.
pub mod word;

// The steps of a job, with each run of points as one mask.
pub mod act;

// The lines of a listing.
pub mod line;

// A job, performed on its pile of holders.
mod perform;

// A listing as text.
pub mod text;

// The listing of a strip.
pub mod run;

// The laws of runs of points, each the promise of a call.
pub mod laws;

// A worked example of a listing.
pub mod examples;
#[cfg(test)]
mod tests;
