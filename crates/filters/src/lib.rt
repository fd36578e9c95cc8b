// Erosion and dilation of a sheet under a mask, in place, by a chord table that the caller lends.
#![tactic(auto)]

// Erosion and dilation of a holder's sheet.
pub mod filter;

// Find: a search by two masks.
pub mod find;

// The two sides of a lattice: what is picked, and what stands where there is no cell.
mod side;

// What a filter goes by.
mod course;

// The lines of the table.
mod line;

// A row of the result, gathered from the chords and put on the sheet.
mod row;

// The ring of table lines.
mod ring;

// The sweep over a sheet.
mod sweep;
#[cfg(test)]
mod tests;
