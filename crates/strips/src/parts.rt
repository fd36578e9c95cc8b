// The parts of a job.
ghost use Rattle.std.specs.Prelude.{◌≡◌};
ghost use Rattle.strips.specs.Jobs.{point_of};

use crate::kind::CellKind;
use masks::point::Point;
use morphology::call::Filter;

// What a head says of the sheet. That its numbers are small, which they are as u32, no `Size` would tell.
#[derive(Clone, Copy, PartialEq, Eq, Debug)]
pub struct Shape {
    pub kind: CellKind,
    pub width: u32,
    pub height: u32,
}

// The fields of a point, its u and its v counted from -15.
#[derive(Clone, Copy, PartialEq, Eq, Debug)]
pub struct PointFields {
    pub u: u8,
    pub v: u8,
}

// The point of a mask that the fields mean. One beyond 15 comes of a field of 31.
impl From<PointFields> for Point {
    ghost from_gives = { λ p r. r ≡ point_of p };

    fn from(fields: PointFields) -> Point {
        Point {
            u: i32::from(fields.u) - 15,
            v: i32::from(fields.v) - 15,
        }
    }
}

// A step of the job.
#[derive(Clone, Copy, PartialEq, Eq, Debug)]
pub enum Step {
    // A point of a mask.
    Point(PointFields),
    // A filter under the mask.
    Call(Filter),
}
