// Worksheets: a sheet and the mask that lies on it, and the filters as calls.
#![tactic(auto)]

// A worksheet, and its five calls.
pub mod worksheet;

// The four filters of a holder's sheet under a mask, told as those of a worksheet on which the mask lies.
mod masked;

// Lists of calls on one worksheet.
pub mod run;

// One list of calls on two worksheets, with the three laws.
pub mod both;

// Mid, between opening and closing.
pub mod mid;
#[cfg(test)]
mod tests;
