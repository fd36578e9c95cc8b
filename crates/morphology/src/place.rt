// A place of a sheet.

// Column x, counted from the west, and row y, counted from the north, both from 0. A character of a drawing has a place of
// its own type, with lines and columns that count from 1.
#[derive(Clone, Copy, PartialEq, Eq, Debug)]
pub struct Place {
    pub x: usize,
    pub y: usize,
}
