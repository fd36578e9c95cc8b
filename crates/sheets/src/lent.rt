// A sheet over lent cells.
ghost use Rattle.std.specs.Prelude.{◌≡◌, ◌<◌, ◌≤◌, length, IfSome};

use crate::holder::{Holder, Size};
use crate::layout::Layout;
use std::marker::PhantomData;

// Cells in the layout L, enough for the size. Those that stand at no place are not on the sheet.
#[derive(Drop)]
pub struct Lent<'a, C, L: Layout> {
    size: Size,
    cells: &'a mut [C],
    layout: PhantomData<L>,
    ghost fits: { L.room size.width size.height ≤ length cells.now },
}

impl<'a, C, L: Layout> Lent<'a, C, L> {
    ghost use Rattle.sheets.specs.Sheet.{held};
    ghost use Rattle.sheets.specs.Lent.{lent_sheet};

    // A sheet of that size, if there are cells enough for it; else one of 0 by 0.
    pub(crate) fn lay(size: Size, cells: &'a mut [C]) -> Lent<'a, C, L>
        ensures { lent_sheet L.room L.place result ≡ held (L.room size.width size.height) size.width size.height (L.place size.width) cells.old }
    {
        let size = if L::fits(size, cells.len()) {
            size
        } else {
            Size::NONE
        };
        Lent {
            size,
            cells,
            layout: PhantomData,
        }
    }

    // The lent cells, with what was put.
    pub fn into_cells(self) -> &'a mut [C]
        ensures { result.now ≡ self.entry.cells.now }
    {
        let Lent { cells, .. } = self;
        cells
    }
}

impl<'a, C: Copy, L: Layout> Lent<'a, C, L> {
    ghost use Rattle.sheets.specs.Sheet.{spot};
    ghost use Rattle.sheets.specs.Lent.{lent_sheet};

    // Where the cell of a place stands among the cells, if the place is on the sheet.
    fn spot_of(&self, x: usize, y: usize) -> Option<usize>
        ensures answer { result ≡ spot (lent_sheet L.room L.place self.now) (L.place self.now.size.width) x y }
        ensures below { IfSome result (λ i. i < length self.now.cells.now) }
    {
        // By `then`, that the place has a cell would stay open.
        if x < self.size.width && y < self.size.height {
            Some(L::place(self.size.width, x, y))
        } else {
            None
        }
    }
}

impl<'a, C: Copy, L: Layout> Holder for Lent<'a, C, L> {
    ghost use Rattle.sheets.specs.Lent.{lent_sheet};

    type Cell = C;

    ghost sheet = { lent_sheet L.room L.place };

    fn size(&self) -> Size {
        self.size
    }

    fn cell(&self, x: usize, y: usize) -> Option<C> {
        let i = self.spot_of(x, y)?;
        Some(self.cells[i])
    }

    fn put(&mut self, x: usize, y: usize, c: C) -> bool {
        let Some(i) = self.spot_of(x, y) else {
            return false;
        };
        self.cells[i] = c;
        true
    }
}
