// Which sheet stands after openings and closings under one mask.
ghost use Rattle.std.specs.Prelude.{◌≡◌};
ghost use Rattle.morphology.specs.Standing.{filter_of, other as other_of, Follows};

use crate::call::Filter;
use cells::kind::Kind;

// The two sorts of filter.
#[derive(Clone, Copy, PartialEq, Eq, Debug)]
pub enum Sort {
    Opening,
    Closing,
}

impl Sort {
    // The other sort.
    pub fn other(self) -> Sort
        ensures { result ≡ other_of self }
    {
        match self {
            Sort::Opening => Sort::Closing,
            Sort::Closing => Sort::Opening,
        }
    }
}

// The filter of a sort.
impl From<Sort> for Filter {
    ghost from_gives = { λ q f. f ≡ filter_of q };

    fn from(sort: Sort) -> Filter {
        match sort {
            Sort::Opening => Filter::Open,
            Sort::Closing => Filter::Close,
        }
    }
}

// The name of a sheet: the loaded one, or filtered by a sort, then by the other sort, then by the first again.
#[derive(Clone, Copy, PartialEq, Eq, Debug)]
pub enum Standing {
    Loaded,
    Once(Sort),
    Twice(Sort),
    Thrice(Sort),
}

impl Standing {
    // The name of the sheet after one filter more, on every sheet of this kind of cell and under every mask.
    pub fn then<K: Kind>(self, sort: Sort) -> Standing
        ensures { Follows K.Kind.lattice sort self result }
    {
        match self {
            Standing::Loaded => Standing::Once(sort),
            Standing::Once(first) | Standing::Twice(first) | Standing::Thrice(first) => {
                if sort != first {
                    Standing::Twice(first)
                } else if self == Standing::Once(first) {
                    self
                } else {
                    Standing::Thrice(first)
                }
            }
        }
    }
}
