// The calls on a worksheet, and what each answers.
use crate::refusal::Refusal;
use masks::mask::Mask;
use std::fmt;

// A filter that replaces the sheet.
#[derive(Clone, Copy, PartialEq, Eq, Debug)]
pub enum Filter {
    Erode,
    Dilate,
    Open,
    Close,
}

impl fmt::Display for Filter {
    ghost use Rattle.std.specs.Prelude.{Some};
    ghost use Rattle.morphology.specs.Calls.{filter_name};

    ghost output = { λ q. Some (filter_name q) };

    fn fmt<W: fmt::Write>(&self, f: &mut fmt::Formatter<W>) -> fmt::Result {
        f.write_str(match self {
            Filter::Erode => "erode",
            Filter::Dilate => "dilate",
            Filter::Open => "open",
            Filter::Close => "close",
        })
    }
}

// A call on a worksheet.
#[derive(Clone, Copy)]
pub enum Call {
    // Lays a mask, in place of the one that lay before.
    Lay(Mask),
    // Filters under the mask that lies, with a table of so many cells.
    Apply(Filter, usize),
}

// What a call answers. Three cases, and no Result in one of two, since each is told apart in one match.
#[derive(Clone, Copy, PartialEq, Eq, Debug)]
pub enum Answer {
    // The mask lies.
    Laid,
    // The sheet is filtered, by so many picks.
    Picks(u64),
    // The filter is refused, and nothing is altered.
    Refused(Refusal),
}

// What a filter gives back, as the answer to a call.
impl From<Result<u64, Refusal>> for Answer {
    ghost use Rattle.std.specs.Prelude.{◌≡◌};
    ghost use Rattle.morphology.specs.Calls.{reply};

    ghost from_gives = { λ r a. a ≡ reply r };

    fn from(given: Result<u64, Refusal>) -> Answer {
        match given {
            Ok(picks) => Answer::Picks(picks),
            Err(refusal) => Answer::Refused(refusal),
        }
    }
}
