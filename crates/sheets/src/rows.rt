// A sheet over lent cells, row by row.
ghost use Rattle.std.specs.Prelude.{◌≡◌, ◌*◌, refl};
ghost use Rattle.sheets.specs.Rows.{row_place, row_count, whole_rows, rows_sheet};
ghost use Rattle.sheets.specs.RowPlaces.{rows_within, rows_apart};

use crate::holder::Size;
use crate::layout::{Layout, enough};
use crate::lent::Lent;

// Rows of one width, the northmost first.
#[derive(Drop)]
pub struct ByRow;

// Cells after the last whole row are not on the sheet.
pub type Rows<'a, C> = Lent<'a, C, ByRow>;

impl Layout for ByRow {
    ghost room = { λ w h. h * w };

    ghost place = { row_place };

    ghost empty = { refl };

    ghost within = { rows_within };

    ghost apart = { rows_apart };

    fn fits(size: Size, n: usize) -> bool {
        enough(size.height, size.width, n)
    }

    fn place(width: usize, x: usize, y: usize) -> usize {
        y * width + x
    }
}

impl<'a, C> Rows<'a, C> {
    // As many rows of that width as the cells fill; 0 by 0 where the width is 0.
    #[tactic(auto, using(crate::proofs::WholeRows::rows_made))]
    pub fn new(width: usize, cells: &'a mut [C]) -> Rows<'a, C>
        ensures { rows_sheet result ≡ whole_rows width cells.old }
    {
        let height = row_count(width, cells.len());
        Lent::lay(Size { width, height }, cells)
    }
}

// How many whole rows of that width n cells make.
fn row_count(width: usize, n: usize) -> usize
    ensures { result ≡ row_count width n }
{
    n.checked_div(width).unwrap_or(0)
}

#[cfg(test)]
mod tests {
    use super::*;
    use crate::holder::Holder;

    fn size_at(width: usize) -> Size {
        let mut cells = [0u8; 9];
        Rows::new(width, &mut cells).size()
    }

    #[test]
    fn nine_cells_make_whole_rows_of_any_width(rt: HostRuntime) {
        assert_eq!(rt; size_at(0), Size::NONE);
        assert_eq!(rt;
            size_at(1),
            Size {
                width: 1,
                height: 9,
            }
        );
        assert_eq!(rt;
            size_at(7),
            Size {
                width: 7,
                height: 1,
            }
        );
        assert_eq!(rt;
            size_at(8),
            Size {
                width: 8,
                height: 1,
            }
        );
        assert_eq!(rt;
            size_at(9),
            Size {
                width: 9,
                height: 1,
            }
        );
        assert_eq!(rt;
            size_at(10),
            Size {
                width: 10,
                height: 0,
            }
        );
    }

    #[test]
    fn a_put_changes_one_cell_and_none_off_the_sheet(rt: HostRuntime) {
        let mut cells = [0u8; 7];
        let mut rows = Rows::new(3, &mut cells);
        assert!(rt; rows.put(2, 1, 5));
        assert!(rt; !rows.put(3, 0, 6));
        assert!(rt; !rows.put(0, 2, 6));
        assert_eq!(rt; rows.cell(0, 2), None);
        let shown: &[u8] = rows.into_cells();
        let wanted: &[u8] = &[0, 0, 0, 0, 0, 5, 0];
        assert_eq!(rt; shown, wanted);
    }
}
