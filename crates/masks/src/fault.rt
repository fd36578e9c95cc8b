// Why a mask cannot be made.
ghost use Rattle.std.specs.Prelude.{◌≡◌};
ghost use Rattle.masks.specs.Faults.{number};

// A refusal to make a mask from a list of points.
#[derive(Clone, Copy, PartialEq, Eq, Debug)]
pub enum MaskFault {
    // The list has no points.
    NoPoints,
    // The point at this place of the list, the first such, lies beyond 15 either way.
    Beyond(usize),
}

impl MaskFault {
    // The number under which the refusal is told.
    pub fn number(self) -> u8
        ensures { result ≡ number self }
    {
        match self {
            MaskFault::NoPoints => 7,
            MaskFault::Beyond(_) => 8,
        }
    }
}
