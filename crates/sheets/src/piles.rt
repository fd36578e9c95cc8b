// Layers on layers: a window over south-up, over any holder.
ghost use Rattle.std.specs.Prelude.{◌≡◌, ◌+◌, if◌then◌else◌};
ghost use Rattle.sheets.specs.Sheet.{has, put_at};
ghost use Rattle.sheets.specs.SouthUp.{from_south, flipped, turned_sheet};
ghost use Rattle.sheets.specs.Part.{part, window_sheet};
ghost use Rattle.sheets.specs.Copied.{same_size};
ghost use Rattle.sheets.specs.Rows.{rows_sheet};
ghost use Rattle.sheets.specs.Tiles.{tiles_sheet};

use crate::copy::copy_into;
use crate::holder::Holder;
use crate::rows::Rows;
use crate::south_up::SouthUp;
use crate::tiles::Tiles;
use crate::window::{Rectangle, Window};

// Puts a cell by its place in a rectangle whose rows count from the south, and gives the holder back: no other cell changes.
pub fn put_from_south<H: Holder>(inner: H, asked: Rectangle, x: usize, y: usize, c: H::Cell) -> H
where
    H::Cell: Drop,
    ensures { H.Holder.sheet result ≡ (if has (part (flipped (H.Holder.sheet inner)) asked) x y then put_at (H.Holder.sheet inner) (asked.left + x) (from_south (H.Holder.sheet inner).height (asked.top + y)) c else H.Holder.sheet inner) }
{
    let mut pile = Window::new(SouthUp::new(inner), asked);
    let _ = pile.put(x, y, c);
    pile.into_inner().into_inner()
}

// Copies a rectangle of rows into one of tiles, both with their rows counted from the south.
pub fn rows_into_tiles<'a, 'b, C: Copy + Drop>(
    from: &Window<SouthUp<Rows<'a, C>>>,
    to: &mut Window<SouthUp<Tiles<'b, C>>>,
) -> bool
    ensures answer { result ≡ same_size (window_sheet (turned_sheet rows_sheet) from.now) (window_sheet (turned_sheet tiles_sheet) to.old) }
    ensures after { window_sheet (turned_sheet tiles_sheet) to.new ≡ (if result then window_sheet (turned_sheet rows_sheet) from.now else window_sheet (turned_sheet tiles_sheet) to.old) }
{
    copy_into(from, to)
}

#[cfg(test)]
mod tests {
    use super::*;
    use crate::holder::Size;

    #[test]
    fn a_put_through_two_layers_reaches_one_cell_of_rows(rt: HostRuntime) {
        let mut cells = [0u8; 6];
        let size = Size {
            width: 5,
            height: 2,
        };
        let rows = put_from_south(
            Rows::new(2, &mut cells),
            Rectangle {
                left: 1,
                top: 0,
                size,
            },
            0,
            1,
            7,
        );
        let shown: &[u8] = rows.into_cells();
        let wanted: &[u8] = &[0, 0, 0, 7, 0, 0];
        assert_eq!(rt; shown, wanted);
    }

    #[test]
    fn a_copy_goes_from_pile_to_pile(rt: HostRuntime) {
        let mut from = [1u8, 2, 3, 4];
        let mut to = [0u8; 64];
        let size = Size {
            width: 2,
            height: 1,
        };
        let rows = Window::new(
            SouthUp::new(Rows::new(2, &mut from)),
            Rectangle {
                left: 0,
                top: 1,
                size,
            },
        );
        let mut tiles = Window::new(
            SouthUp::new(Tiles::new(2, 3, &mut to)),
            Rectangle {
                left: 0,
                top: 0,
                size,
            },
        );
        assert!(rt; rows_into_tiles(&rows, &mut tiles));
        let tiles = tiles.into_inner().into_inner();
        assert_eq!(rt; tiles.cell(0, 2), Some(1));
        assert_eq!(rt; tiles.cell(1, 2), Some(2));
        assert_eq!(rt; tiles.cell(0, 0), Some(0));
    }
}
