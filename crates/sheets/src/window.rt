// A rectangle of a holder's sheet, counted from its own corner.
ghost use Rattle.std.specs.Prelude.{◌≡◌, ◌+◌, if◌then◌else◌, Some, None};
ghost use Rattle.sheets.specs.Sheet.{has, put_at};
ghost use Rattle.sheets.specs.Part.{overlap, unless_none, part, window_sheet, put_through};

use crate::holder::{Holder, Size};

// A rectangle of places: the corner where it begins, and its size.
#[derive(Clone, Copy, PartialEq, Eq, Debug)]
pub struct Rectangle {
    pub left: usize,
    pub top: usize,
    pub size: Size,
}

// The part of an asked rectangle that lies on the holder below.
#[derive(Drop)]
pub struct Window<H> {
    inner: H,
    asked: Rectangle,
}

impl<H: Holder> Window<H> {
    // What lies on the holder of that rectangle; 0 by 0 where nothing does.
    pub fn new(inner: H, asked: Rectangle) -> Window<H>
        ensures shows { window_sheet H.Holder.sheet result ≡ part (H.Holder.sheet inner) asked }
        ensures made { result ≡ record { inner = inner; asked = asked } }
    {
        Window { inner, asked }
    }

    // The holder below, with what was put.
    pub fn into_inner(self) -> H
        ensures { result ≡ self.inner }
    {
        self.inner
    }

    // The place below that a place of the window shows, if it shows one.
    fn place_below(&self, x: usize, y: usize) -> Option<(usize, usize)>
        ensures { result ≡ (if has (window_sheet H.Holder.sheet self.now) x y then Some (self.now.asked.left + x, self.now.asked.top + y) else None) }
    {
        // By `clipped`, that a place off one of the overlaps has no cell would stay open; by `then`, that the sums fit.
        let size = self.inner.size();
        let asked = self.asked;
        if x < overlap_of(size.width, asked.left, asked.size.width)
            && y < overlap_of(size.height, asked.top, asked.size.height)
        {
            Some((asked.left + x, asked.top + y))
        } else {
            None
        }
    }
}

impl<H: Holder> Holder for Window<H>
where
    H::Cell: Drop,
{
    type Cell = H::Cell;

    ghost sheet = { window_sheet H.Holder.sheet };

    fn size(&self) -> Size {
        clipped(self.inner.size(), self.asked)
    }

    fn cell(&self, x: usize, y: usize) -> Option<H::Cell> {
        let (column, row) = self.place_below(x, y)?;
        self.inner.cell(column, row)
    }

    // Reaches through to the holder below, where every other cell stays.
    fn put(&mut self, x: usize, y: usize, c: H::Cell) -> bool
        ensures answer { result ≡ has (window_sheet H.Holder.sheet self.old) x y }
        ensures after { window_sheet H.Holder.sheet self.new ≡ put_at (window_sheet H.Holder.sheet self.old) x y c }
        ensures below { H.Holder.sheet self.new.inner ≡ put_through H.Holder.sheet self.old x y c }
        ensures asked { self.new.asked ≡ self.old.asked }
    {
        let Some((column, row)) = self.place_below(x, y) else {
            return false;
        };
        self.inner.put(column, row, c)
    }
}

// The size of what lies on a sheet of that size of a rectangle.
fn clipped(sheet: Size, asked: Rectangle) -> Size
    ensures width { result.width ≡ unless_none (overlap sheet.height asked.top asked.size.height) (overlap sheet.width asked.left asked.size.width) }
    ensures height { result.height ≡ unless_none (overlap sheet.width asked.left asked.size.width) (overlap sheet.height asked.top asked.size.height) }
{
    let across = overlap_of(sheet.width, asked.left, asked.size.width);
    let down = overlap_of(sheet.height, asked.top, asked.size.height);
    if across == 0 || down == 0 {
        Size::NONE
    } else {
        Size {
            width: across,
            height: down,
        }
    }
}

// How many of `extent` places, the first of them at `from`, lie below `size`.
fn overlap_of(size: usize, from: usize, extent: usize) -> usize
    ensures { result ≡ overlap size from extent }
{
    extent.min(size.saturating_sub(from))
}

#[cfg(test)]
mod tests {
    use super::*;
    use crate::rows::Rows;

    // What a window shows of a sheet of 3 by 3.
    fn size_of(left: usize, top: usize, width: usize, height: usize) -> Size {
        let mut cells = [0u8; 9];
        let size = Size { width, height };
        Window::new(Rows::new(3, &mut cells), Rectangle { left, top, size }).size()
    }

    #[test]
    fn a_window_shows_what_lies_on_the_sheet(rt: HostRuntime) {
        assert_eq!(rt;
            size_of(1, 2, 2, 5),
            Size {
                width: 2,
                height: 1,
            },
            "half off"
        );
        assert_eq!(rt; size_of(3, 0, 2, 2), Size::NONE, "wholly off");
        assert_eq!(rt; size_of(0, 0, 2, 0), Size::NONE, "without extent");
        assert_eq!(rt;
            size_of(usize::MAX, 0, usize::MAX, 1),
            Size::NONE,
            "far off"
        );
    }
}
