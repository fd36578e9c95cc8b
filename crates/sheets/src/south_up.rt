// A holder's sheet with its southmost row first.
ghost use Rattle.std.specs.Prelude.{◌≡◌};
ghost use Rattle.sheets.specs.SouthUp.{from_south, flipped, turned_sheet};

use crate::holder::{Holder, Size};

// Row y of this layer is row height - 1 - y of the holder below.
#[derive(Drop)]
pub struct SouthUp<H> {
    inner: H,
}

impl<H: Holder> SouthUp<H> {
    // The sheet of that holder, turned over.
    pub fn new(inner: H) -> SouthUp<H>
        ensures shows { turned_sheet H.Holder.sheet result ≡ flipped (H.Holder.sheet inner) }
        ensures made { result ≡ record { inner = inner } }
    {
        SouthUp { inner }
    }

    // The holder below, with what was put.
    pub fn into_inner(self) -> H
        ensures { result ≡ self.inner }
    {
        self.inner
    }
}

impl<H: Holder> Holder for SouthUp<H> {
    type Cell = H::Cell;

    ghost sheet = { turned_sheet H.Holder.sheet };

    fn size(&self) -> Size {
        self.inner.size()
    }

    fn cell(&self, x: usize, y: usize) -> Option<H::Cell> {
        self.inner.cell(x, row_below(&self.inner, y))
    }

    fn put(&mut self, x: usize, y: usize, c: H::Cell) -> bool {
        let row = row_below(&self.inner, y);
        self.inner.put(x, row, c)
    }
}

// The row of the holder below that row y shows; a row off the sheet stays off.
fn row_below<H: Holder>(below: &H, y: usize) -> usize
    ensures { result ≡ from_south (H.Holder.sheet below.now).height y }
{
    let height = below.size().height;
    if y < height { height - 1 - y } else { y }
}
