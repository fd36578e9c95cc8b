// The laws of layers and holders, each the contract of a call.
ghost use Rattle.std.specs.Prelude.{◌≡◌, ◌&&◌, T, if◌then◌else◌};
ghost use Rattle.sheets.specs.SouthUp.{turned_sheet};
ghost use Rattle.sheets.specs.Part.{common, part, window_sheet};
ghost use Rattle.sheets.specs.Copied.{same_size};
ghost use Rattle.sheets.specs.Rows.{rows_sheet};
ghost use Rattle.sheets.specs.Tiles.{tiles_sheet};

use crate::copy::copy_into;
use crate::holder::Holder;
use crate::rows::Rows;
use crate::south_up::SouthUp;
use crate::tiles::Tiles;
use crate::window::{Rectangle, Window};

// South-up over south-up shows the holder below.
pub fn south_up_twice<H: Holder>(inner: H) -> SouthUp<SouthUp<H>>
    ensures { turned_sheet (turned_sheet H.Holder.sheet) result ≡ H.Holder.sheet inner }
{
    SouthUp::new(SouthUp::new(inner))
}

// A window over a window shows the window of the common rectangle.
pub fn window_over_window<H: Holder>(inner: Window<H>, asked: Rectangle) -> Window<Window<H>>
where
    H::Cell: Drop,
    ensures { window_sheet (window_sheet H.Holder.sheet) result ≡ part (H.Holder.sheet inner.inner) (common inner.asked asked) }
{
    Window::new(inner, asked)
}

// Rows and tiles filled alike show the same sheet. Where the rows have another size nothing is filled, where the tiles have, the rows alone.
pub fn fill_alike<C: Copy, G: Holder<Cell = C>>(
    from: &G,
    rows: &mut Rows<'_, C>,
    tiles: &mut Tiles<'_, C>,
) -> bool
    ensures answer { result ≡ (same_size (G.Holder.sheet from.now) (rows_sheet rows.old) && same_size (G.Holder.sheet from.now) (tiles_sheet tiles.old)) }
    ensures rows { rows_sheet rows.new ≡ (if same_size (G.Holder.sheet from.now) (rows_sheet rows.old) then G.Holder.sheet from.now else rows_sheet rows.old) }
    ensures tiles { tiles_sheet tiles.new ≡ (if result then G.Holder.sheet from.now else tiles_sheet tiles.old) }
    ensures same { T result → rows_sheet rows.new ≡ tiles_sheet tiles.new }
{
    copy_into(from, rows) && copy_into(from, tiles)
}

#[cfg(test)]
mod tests {
    use super::*;
    use crate::holder::Size;

    #[test]
    fn layers_over_rows_show_what_the_laws_say(rt: HostRuntime) {
        let mut cells = [1u8, 2, 3, 4, 5, 6];
        let turned = south_up_twice(Rows::new(3, &mut cells));
        assert_eq!(rt; turned.cell(0, 1), Some(4));
        let far = Size {
            width: 9,
            height: 9,
        };
        let outer = Window::new(
            turned,
            Rectangle {
                left: 1,
                top: 0,
                size: far,
            },
        );
        let one = Size {
            width: 1,
            height: 1,
        };
        let inner = window_over_window(
            outer,
            Rectangle {
                left: 1,
                top: 1,
                size: one,
            },
        );
        assert_eq!(rt; inner.cell(0, 0), Some(6));
    }

    #[test]
    fn rows_and_tiles_are_filled_alike(rt: HostRuntime) {
        let mut cells = [1u8, 2, 3, 4];
        let mut room = [0u8; 4];
        let mut squares = [0u8; 64];
        let from = Rows::new(2, &mut cells);
        let mut rows = Rows::new(2, &mut room);
        let mut tiles = Tiles::new(2, 2, &mut squares);
        assert!(rt; fill_alike(&from, &mut rows, &mut tiles));
        assert_eq!(rt; rows.cell(0, 1), Some(3));
        assert_eq!(rt; tiles.cell(0, 1), Some(3));
    }
}
