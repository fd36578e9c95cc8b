// Sheets: rectangles of cells, whoever holds them.
#![tactic(auto)]

// What holding a sheet means.
pub mod holder;

// Where the cells of a sheet lie in lent memory.
mod layout;

// A sheet over lent cells.
pub mod lent;

// A sheet over lent cells, row by row.
pub mod rows;

// A sheet over lent cells, in squares of 8 by 8.
pub mod tiles;

// A holder's sheet with its southmost row first.
pub mod south_up;

// A rectangle of a holder's sheet, counted from its own corner.
pub mod window;

// Copying one holder's sheet into another.
pub mod copy;

// The laws of layers and holders, each the contract of a call.
pub mod laws;

// Layers on layers: a window over south-up, over any holder.
pub mod piles;
