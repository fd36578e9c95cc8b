// A sheet over lent cells, in squares of 8 by 8.
ghost use Rattle.std.specs.Prelude.{◌≡◌, refl};
ghost use Rattle.sheets.specs.Tiles.{eights, room, tile_place, in_tiles, tiles_sheet};
ghost use Rattle.sheets.specs.TilePlaces.{tiles_within, tiles_apart};

use crate::holder::Size;
use crate::layout::{Layout, enough};
use crate::lent::Lent;

// Whole squares, row by row, and the cells row by row in each.
#[derive(Drop)]
pub struct InSquares;

// Squares at the east and south edge may be shown in part.
pub type Tiles<'a, C> = Lent<'a, C, InSquares>;

impl Layout for InSquares {
    ghost room = { room };

    ghost place = { λ w. tile_place (eights w) };

    ghost empty = { refl };

    ghost within = { tiles_within };

    ghost apart = { tiles_apart };

    fn fits(size: Size, n: usize) -> bool {
        enough(eights_over(size.width), eights_over(size.height), n / 64)
    }

    fn place(width: usize, x: usize, y: usize) -> usize {
        let square = y / 8 * eights_over(width) + x / 8;
        square * 64 + (y % 8 * 8 + x % 8)
    }
}

impl<'a, C> Tiles<'a, C> {
    // The asked size, if its squares have their cells; else 0 by 0.
    pub fn new(width: usize, height: usize, cells: &'a mut [C]) -> Tiles<'a, C>
        ensures { tiles_sheet result ≡ in_tiles width height cells.old }
    {
        Lent::lay(Size { width, height }, cells)
    }
}

// How many squares cover n places in a line.
fn eights_over(n: usize) -> usize
    ensures { result ≡ eights n }
{
    n.div_ceil(8)
}

#[cfg(test)]
mod tests {
    use super::*;
    use crate::holder::Holder;

    // What 256 cells show when a square sheet of that side is asked for.
    fn side(n: usize) -> usize {
        let mut cells = [0u8; 256];
        Tiles::new(n, n, &mut cells).size().width
    }

    #[test]
    fn four_squares_show_sides_up_to_sixteen(rt: HostRuntime) {
        assert_eq!(rt; side(0), 0);
        assert_eq!(rt; side(1), 1);
        assert_eq!(rt; side(7), 7);
        assert_eq!(rt; side(8), 8);
        assert_eq!(rt; side(9), 9);
        assert_eq!(rt; side(17), 0);
        assert_eq!(rt; side(usize::MAX), 0);
    }

    #[test]
    fn one_cell_too_few_shows_nothing(rt: HostRuntime) {
        let mut cells = [0u8; 63];
        let mut tiles = Tiles::new(1, 1, &mut cells);
        assert_eq!(rt; tiles.size(), Size::NONE);
        assert!(rt; !tiles.put(0, 0, 1));
    }

    #[test]
    fn squares_lie_row_by_row(rt: HostRuntime) {
        let mut cells = [0u8; 256];
        let mut tiles = Tiles::new(9, 9, &mut cells);
        assert!(rt; tiles.put(1, 2, 3));
        assert!(rt; tiles.put(8, 0, 4));
        assert!(rt; tiles.put(0, 8, 5));
        assert!(rt; !tiles.put(9, 8, 6));
        let cells = tiles.into_cells();
        assert!(rt; cells.len() == 256);
        assert_eq!(rt; (cells[17], cells[64], cells[128]), (3, 4, 5));
    }
}
