// The sizes of sheets that the filters take.
ghost use Rattle.std.specs.Prelude.{◌≡◌, ◌&&◌, if◌then◌else◌, Some, Ok, Err};
ghost use Rattle.morphology.specs.Refusals.{fits};
ghost use Rattle.texts.specs.Told.{size_text};

use crate::told::ToldRefusal;
use morphology::refusal::{Refusal, can_filter};
use sheets::holder::Size;
use std::fmt;

// A size that the filters refuse: its width or height is 0 or above 2,048.
#[derive(Clone, Copy, PartialEq, Eq, Debug)]
pub struct WrongSize(pub Size);

impl fmt::Display for WrongSize {
    ghost output = { λ s. Some (size_text s.0) };

    fn fmt<W: fmt::Write>(&self, f: &mut fmt::Formatter<W>) -> fmt::Result {
        let Size { width, height } = self.0;
        let refused = ToldRefusal(Refusal::WrongSize(self.0));
        write!(
            f,
            "{refused}: the sheet is {width} by {height}; each goes from 1 to 2048"
        )
    }
}

// The size, where the filters take it: width and height from 1 to 2,048.
pub fn sized(size: Size) -> Result<Size, WrongSize>
    ensures { result ≡ (if fits size.width && fits size.height then Ok size else Err (record { 0 = size })) }
{
    if can_filter(size) {
        Ok(size)
    } else {
        Err(WrongSize(size))
    }
}
