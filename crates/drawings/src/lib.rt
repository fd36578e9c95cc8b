// Masks drawn with the keyboard.
#![tactic(auto)]

// A drawing: the points that it draws, or what is wrong with it.
pub mod drawing;

// The mask that a drawing draws, or what is wrong with it.
pub mod drawn;

// A mask drawn again.
pub mod picture;
