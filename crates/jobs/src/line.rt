// The lines of a listing.
ghost use Rattle.std.specs.Prelude.{◌≡◌};

use crate::fault::JobFault;
use morphology::call::Filter;
use morphology::refusal::Refusal;
use sheets::holder::Size;
use std::marker::Model;
use strips::kind::CellKind;

// A row of a sheet, each cell by its word.
#[derive(Drop)]
pub struct Row {
    words: Vec<u32>,
}

impl Model for Row {
    ghost use Rattle.std.specs.Prelude.{ℕ, List};

    ghost Value = { List ℕ };

    ghost view = { λ r. r.words.items };
}

impl Row {
    // The row of these words.
    pub fn new(words: Vec<u32>) -> Row
        ensures { result ≡ words.items }
    {
        Row { words }
    }

    // The words, from the west.
    pub fn words(&self) -> &[u32]
        ensures { result.now ≡ self.now }
    {
        self.words.as_slice()
    }
}

// A line of a listing.
#[derive(Drop)]
pub enum Line {
    // The strip is refused, or no mask can be made of a run of points.
    Refused(JobFault),
    // The kind and the size of the topmost sheet.
    Sheet { kind: CellKind, size: Size },
    // A mask is laid: how many points and chords it has.
    Mask { points: usize, chords: usize },
    // A filter was called: its picks, or why it did not go ahead.
    Call(Filter, Result<u64, Refusal>),
    // A row of the topmost sheet.
    Cells(CellKind, Row),
}
