// Plans: what a filter goes by, made from a mask once for each call.
#![tactic(auto)]

// The chords of a mask, as the plan has them.
pub mod placed;

// A list of such chords, which can be copied.
pub mod planned;

// The plan itself: rows, lengths and chords, counted from the corner of a chord table.
pub mod plan;
#[cfg(test)]
mod tests;
