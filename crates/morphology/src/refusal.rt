// Why a filter is refused.
ghost use Rattle.std.specs.Prelude.{◌≡◌, ◌&&◌};
ghost use Rattle.morphology.specs.Refusals.{number, values, fits};

use sheets::holder::Size;

// The longest side of a sheet that is filtered.
const LONGEST: usize = 2048;

// The ground on which a filter is refused.
#[derive(Clone, Copy, PartialEq, Eq, Debug)]
pub enum Refusal {
    // The sheet's width or height is 0 or above 2,048.
    WrongSize(Size),
    // No mask is laid.
    NoMask,
    // The table needs so many cells, and the lent one has fewer.
    ShortTable { needed: usize, lent: usize },
    // The size of the second sheet is not that of the first.
    UnlikeSizes { first: Size, second: Size },
}

impl Refusal {
    // The number under which the refusal is told.
    pub fn number(self) -> u8
        ensures { result ≡ number self }
    {
        match self {
            Refusal::WrongSize(_) => 9,
            Refusal::NoMask => 10,
            Refusal::ShortTable { .. } => 11,
            Refusal::UnlikeSizes { .. } => 12,
        }
    }

    // The values that are told with the refusal; zeros behind the last.
    pub fn values(self) -> [usize; 4]
        ensures { result ≡ values self }
    {
        match self {
            Refusal::WrongSize(size) => [size.width, size.height, 0, 0],
            Refusal::NoMask => [0; 4],
            Refusal::ShortTable { needed, lent } => [needed, lent, 0, 0],
            Refusal::UnlikeSizes { first, second } => {
                [first.width, first.height, second.width, second.height]
            }
        }
    }
}

// Whether a sheet of the size can be filtered: neither extent is 0 or above 2,048.
pub fn can_filter(size: Size) -> bool
    ensures { result ≡ (fits size.width && fits size.height) }
{
    fits(size.width) && fits(size.height)
}

// Whether a width or a height can be filtered.
fn fits(n: usize) -> bool
    ensures { result ≡ fits n }
{
    (1..=LONGEST).contains(&n)
}
