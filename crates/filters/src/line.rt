// The lines of the chord table: loaded from the sheet, and built length by length. What loads them is inlined, since a row is
// copied whole only where the size of its sheet is known.
ghost use Rattle.std.specs.Prelude.{◌≡◌, ℕ, ◌+◌, ◌-◌, ◌*◌, ◌<◌, ◌≤◌, ◌^◌, length};
ghost use Rattle.cells.specs.Lattice.{Under};
ghost use Rattle.masks.specs.Cost.{line_picks};
ghost use Rattle.plans.specs.Shown.{lengths_of};
ghost use Rattle.filters.specs.Side.{side, cell_at};
ghost use Rattle.filters.specs.Line.{or_else, padded, place, entry, Runs, Holds, Beside};

use crate::course::Course;
use crate::side::Side;
use cells::kind::Kind;
use sheets::holder::Holder;

// Takes line `line` into the lines of a slot, with all its lengths, and answers the picks made. A place without a cell stands
// as the padding.
#[inline(always)]
pub(crate) fn take_line<H: Holder, S: Side>(
    h: &H,
    course: &Course<H::Cell>,
    line: usize,
    lines: &mut [H::Cell],
) -> u64
where
    H::Cell: Kind,
    requires { length lines.old ≡ length (lengths_of course.now.plan) * (course.now.width + 30) }
    ensures few { result ≤ 31 * 2078 }
    ensures picks { result ≡ line_picks course.now.width (lengths_of course.now.plan) }
    ensures holds { Holds (side S.Side.lower H.Cell.Kind.lattice) H.Cell.Kind.means (H.Cell.Kind.means course.now.pad) (H.Holder.sheet h.now) course.now.plan course.now.width lines.new 0 line }
{
    load_line(h, course, line, &mut lines[..course.stride()]);
    build::<H::Cell, S>(course, lines)
}

// The single cells of a line: the sheet's row, or none where the line lies above the sheet.
#[inline(always)]
fn load_line<H: Holder>(h: &H, course: &Course<H::Cell>, line: usize, cells: &mut [H::Cell])
where
    H::Cell: Kind,
    requires { length cells.old ≡ course.now.width + 30 }
    ensures { (z : H.Cell.Kind.Cell) (i : ℕ) → i < length cells.old → cell_at H.Cell.Kind.means z cells.new i ≡ or_else H.Cell.Kind.means (H.Cell.Kind.means course.now.pad) (place (H.Holder.sheet h.now) course.now.plan.above i line) }
{
    let above = course.plan.above;
    if line >= above {
        read_row(h, line - above, course.pad, cells);
    } else {
        fill(course.pad, cells);
    }
}

// Row `y` of the sheet, with 15 columns of padding on either side.
#[inline(always)]
fn read_row<H: Holder>(h: &H, y: usize, pad: H::Cell, cells: &mut [H::Cell])
where
    H::Cell: Kind,
    requires { 30 ≤ length cells.old }
    ensures { (z : H.Cell.Kind.Cell) (i : ℕ) → i < length cells.old → cell_at H.Cell.Kind.means z cells.new i ≡ padded H.Cell.Kind.means (H.Cell.Kind.means pad) (H.Holder.sheet h.now) y i }
{
    let east = cells.len() - 15;
    fill(pad, &mut cells[..15]);
    read_cells(h, y, 0, pad, &mut cells[15..east]);
    read_cells(h, y, east - 15, pad, &mut cells[east..]);
}

// The cells of row `y` from column `from` on. Where all of them lie on the sheet, or none does, the loop copies or fills. It
// goes by number, since nothing is known of a slice behind an adapter of its iter_mut.
#[inline(always)]
fn read_cells<H: Holder>(h: &H, y: usize, from: usize, pad: H::Cell, cells: &mut [H::Cell])
where
    H::Cell: Kind,
    requires { from + length cells.old < 2 ^ 64 }
    ensures { (z : H.Cell.Kind.Cell) (i : ℕ) → i < length cells.old → cell_at H.Cell.Kind.means z cells.new i ≡ or_else H.Cell.Kind.means (H.Cell.Kind.means pad) ((H.Holder.sheet h.now).cell (from + i) y) }
{
    for i in 0..cells.len() {
        cells[i] = h.cell(from + i, y).unwrap_or(pad);
    }
}

// Padding in each cell. The library's `fill` asks for a copy that cannot fail, which no bound on K tells.
fn fill<K: Kind>(pad: K, cells: &mut [K])
    ensures { (z : K.Kind.Cell) (i : ℕ) → i < length cells.old → cell_at K.Kind.means z cells.new i ≡ K.Kind.means pad }
{
    for cell in cells.iter_mut() {
        *cell = pad;
    }
}

// The longer runs of a line, each length from the one before. The place of a length tells where its runs begin.
fn build<K: Kind, S: Side>(course: &Course<K>, lines: &mut [K]) -> u64
    requires { length lines.old ≡ length (lengths_of course.now.plan) * (course.now.width + 30) }
    ensures few { result ≤ 31 * 2078 }
    ensures picks { result ≡ line_picks course.now.width (lengths_of course.now.plan) }
    ensures runs { Runs (side S.Side.lower K.Kind.lattice) K.Kind.means (λ x a. Under (side S.Side.lower K.Kind.lattice) a (entry (side S.Side.lower K.Kind.lattice) K.Kind.means lines.old x)) course.now.plan course.now.width lines.new 0 (length (lengths_of course.now.plan)) }
{
    let stride = course.stride();
    let lengths = course.plan.lengths.as_slice();
    let mut picks = 0;
    for (i, (shorter, longer)) in lengths.iter().zip(&lengths[1..]).enumerate() {
        picks += lengthen::<K, S>(
            lines,
            i * stride,
            (i + 1) * stride,
            stride + 1 - *longer,
            *longer - *shorter,
        );
    }
    picks
}

// Makes `n` runs at `to`, each the pick of two overlapping runs that start `d` apart, and answers the picks made. It goes by
// number: nothing would be known of a part of the lines that was written in step with another.
fn lengthen<K: Kind, S: Side>(lines: &mut [K], from: usize, to: usize, n: usize, d: usize) -> u64
    requires { (from + n + d ≤ to) × (to + n ≤ length lines.old) }
    ensures picks { result ≡ n }
    ensures built { (z : K.Kind.Cell) (x : ℕ) → x < n → cell_at K.Kind.means z lines.new (to + x) ≡ (side S.Side.lower K.Kind.lattice).meet (cell_at K.Kind.means z lines.old (from + x)) (cell_at K.Kind.means z lines.old (from + x + d)) }
    ensures beside { Beside K.Kind.means lines.old lines.new to (to + n) }
{
    let mut picks = 0;
    for x in 0..n {
        lines[to + x] = S::pick(lines[from + x], lines[from + x + d]);
        picks += 1;
    }
    picks
}
