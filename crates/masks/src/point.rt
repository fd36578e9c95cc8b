// A point of a mask.

// An offset from the origin: u columns to the right, v rows downward.
#[derive(Clone, Copy, PartialEq, Eq, Debug)]
#[repr(C)]
pub struct Point {
    pub u: i32,
    pub v: i32,
}
