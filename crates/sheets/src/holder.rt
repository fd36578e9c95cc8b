// What holding a sheet means: a size, and one cell at each place inside it.
ghost use Rattle.std.specs.Prelude.{◌≡◌};
ghost use Rattle.sheets.specs.Sheet.{Sheet, Whole, has, put_at};

// A width and a height, in cells.
#[derive(Clone, Copy, PartialEq, Eq, Debug)]
pub struct Size {
    pub width: usize,
    pub height: usize,
}

impl Size {
    // The size that is shown where there is nothing to show: of cells too few for a sheet, or of a window off its holder.
    pub const NONE: Size = Size {
        width: 0,
        height: 0,
    };
}

// A holder of a sheet. Columns count from 0 in the west, rows from 0 in the north.
pub trait Holder {
    type Cell;

    ghost sheet: { Self → Sheet Self.Cell };

    // The size of the sheet, every place of which has a cell. It is a promise of the call and no law of every value: a law
    // would speak of values too that no program makes, of which a holder need not be whole.
    fn size(&self) -> Size
        ensures width { result.width ≡ (sheet self.now).width }
        ensures height { result.height ≡ (sheet self.now).height }
        ensures whole { Whole (sheet self.now) };

    // The cell in column x and row y, or none off the sheet.
    fn cell(&self, x: usize, y: usize) -> Option<Self::Cell>
        ensures { result ≡ (sheet self.now).cell x y };

    // Makes c the cell in column x and row y; off the sheet it changes nothing and answers no.
    fn put(&mut self, x: usize, y: usize, c: Self::Cell) -> bool
        ensures answer { result ≡ has (sheet self.old) x y }
        ensures after { sheet self.new ≡ put_at (sheet self.old) x y c };
}

#[cfg(test)]
mod tests {
    use super::{Holder, Size};

    // A holder over an array of its own: that its sheet is whole is known of each board, and not of each list of cells.
    struct Board {
        cells: [u8; 9],
    }

    impl Holder for Board {
        ghost use Rattle.std.specs.Prelude.{◌+◌, ◌*◌};
        ghost use Rattle.std.specs.List.{slice_get};
        ghost use Rattle.sheets.specs.Sheet.{sheet_of};

        type Cell = u8;

        ghost sheet = { λ b. sheet_of 3 3 (λ x y. slice_get b.cells (y * 3 + x)) };

        fn size(&self) -> Size {
            Size {
                width: 3,
                height: 3,
            }
        }

        fn cell(&self, x: usize, y: usize) -> Option<u8> {
            if x < 3 && y < 3 {
                Some(self.cells[y * 3 + x])
            } else {
                None
            }
        }

        fn put(&mut self, x: usize, y: usize, c: u8) -> bool {
            if x < 3 && y < 3 {
                self.cells[y * 3 + x] = c;
                true
            } else {
                false
            }
        }
    }

    #[test]
    fn a_board_of_nine_cells_is_a_holder(rt: HostRuntime) {
        let mut board = Board { cells: [0; 9] };
        assert!(rt; board.put(2, 1, 7));
        assert!(rt; !board.put(1, 3, 7));
        assert_eq!(rt; board.cell(2, 1), Some(7));
        assert_eq!(rt; board.cell(3, 1), None);
        assert_eq!(rt; board.size().width, 3);
        let Board { cells: _ } = board;
    }
}
