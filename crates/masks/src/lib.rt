// Masks: flat structuring elements of at most 31 by 31 points, their chords, and what a filter under a mask costs.
#![tactic(auto)]

// A point of a mask.
pub mod point;

// Why a mask cannot be made.
pub mod fault;

// The mask itself: a set of points.
pub mod mask;

// Chords: runs of points in one row.
pub mod chord;

// The length list: the run lengths for which a filter's table has lines.
pub mod lengths;

// What a filter under a mask costs.
pub mod cost;
#[cfg(test)]
mod tests;
