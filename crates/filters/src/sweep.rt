// The sweep over a sheet, which erodes it in place on one side of the lattice.
ghost use Rattle.std.specs.Prelude.{◌≡◌, ◌+◌, ◌-◌, ◌*◌, ◌≤◌, List, length};
ghost use Rattle.masks.specs.Cost.{line_picks};
ghost use Rattle.masks.specs.declared.point.Point.{Point};
ghost use Rattle.morphology.specs.Filters.{eroded};
ghost use Rattle.sheets.specs.Sheet.{Whole, shown};
ghost use Rattle.plans.specs.Plan.{Spells};
ghost use Rattle.plans.specs.Shown.{lengths_of, chords_of};
ghost use Rattle.filters.specs.Side.{side};

use crate::ring::Ring;
use crate::row::put_row;
use crate::side::Side;
use cells::kind::Kind;
use plans::plan::Plan;
use sheets::holder::{Holder, Size};

// Erodes the sheet in place on the side S, and answers the picks made. The lines of the sheet are taken into a ring of V
// slots, one after the other. Row y is written when the lines of all its chords are in the table; row y itself is one of
// them, so it is not read again. A holder is asked for its rows by number. All of it is compiled into whoever calls a filter:
// where the holder lies among the caller's own variables, its size and its cells are known then not to change while others
// are written, and whole rows are copied at once.
#[inline(always)]
pub(crate) fn sweep<H: Holder, S: Side>(
    h: &mut H,
    plan: Plan,
    table: &mut [H::Cell],
    size: Size,
) -> u64
where
    H::Cell: Kind,
    requires size { (size.width ≤ 2048) × ((size.height ≤ 2048) × ((size.width ≡ (H.Holder.sheet h.old).width) × (size.height ≡ (H.Holder.sheet h.old).height))) }
    requires some { (1 ≤ size.width) × (1 ≤ size.height) }
    requires whole { Whole (H.Holder.sheet h.old) }
    requires room { plan.rows * length (lengths_of plan) * (size.width + 30) ≤ length table.old }
    ensures picks { result ≡ (size.height + plan.rows - 1) * line_picks size.width (lengths_of plan) + size.height * (size.width * (length (chords_of plan) - 1)) }
    ensures after { (ps : List Point) → Spells plan ps → shown H.Cell.Kind.means (H.Holder.sheet h.new) ≡ eroded (side S.Side.lower H.Cell.Kind.lattice) ps (shown H.Cell.Kind.means (H.Holder.sheet h.old)) }
{
    let mut ring = Ring::new(plan, size.width, S::pad::<H::Cell>());
    let mut picks = ring.first_lines::<H, S>(h, table);
    for y in 0..size.height {
        picks += ring.next_row::<H, S>(h, y, table);
        put_row(h, y, ring.row(table));
    }
    picks
}
