// Where the cells of a sheet lie in lent memory.
ghost use Rattle.std.specs.Prelude.{◌≡◌, ◌*◌, ◌≤◌, ℕ, nat_le};
ghost use Rattle.sheets.specs.Layout.{Apart, Within};

use crate::holder::Size;

// A way to lay sheets in a list of cells, chosen by the type.
pub trait Layout {
    // How many cells a sheet of a width and a height takes.
    ghost room: { ℕ → ℕ → ℕ };

    // The index of the cell in a column and a row, where the sheet has a width.
    ghost place: { ℕ → ℕ → ℕ → ℕ };

    // Whether n cells are enough for a sheet of that size, however large.
    fn fits(size: Size, n: usize) -> bool
        ensures { result ≡ nat_le (room size.width size.height) n };

    // The index of the cell in column x and row y, where it fits its type.
    fn place(width: usize, x: usize, y: usize) -> usize
        requires { place width x y ≤ usize.MAX }
        ensures { result ≡ place width x y };

    // A sheet without cells takes none.
    ghost empty: { room 0 0 ≡ 0 };

    // Every place of a sheet has its index within the room.
    ghost within: { (w h : ℕ) → Within w h (place w) (room w h) };

    // Two places of a sheet never share an index.
    ghost apart: { (w h : ℕ) → Apart w h (place w) };
}

// Whether n cells are enough for that many lines of that width, however large the product.
pub(crate) fn enough(lines: usize, width: usize, n: usize) -> bool
    ensures { result ≡ nat_le (lines * width) n }
{
    lines.checked_mul(width).is_some_and(|room| room <= n)
}
