// The kinds of cell that a sheet can be made of, and maps between them.
#![tactic(auto)]

// What a kind of cell is: a bounded lattice, ranked or measured where it can be.
pub mod kind;

// Gray: a whole number from 0 to 255.
pub mod gray;

// Height: a signed number of millimetres.
pub mod height;

// Flags: a set of eight marks.
pub mod flags;

// Return: the strength of an echo, a float that lies in memory as its bits.
pub mod echo;

// Cells as words of 32 bits, and back.
pub mod words;

// Words, levels and thresholds at their limits.
#[cfg(test)]
mod tests;

// The threshold, which takes gray to flags.
pub mod threshold;
