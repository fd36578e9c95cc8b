// Erosion and dilation of a holder's sheet, in place.
ghost use Rattle.std.specs.Prelude.{◌≡◌, ◌+◌, ◌*◌, ◌≤◌, List, length, Some, Ok, Err, IfOk, MatchResult};
ghost use Rattle.masks.specs.declared.mask.Mask.{Mask};
ghost use Rattle.masks.specs.declared.point.Point.{Point};
ghost use Rattle.sheets.specs.Sheet.{shown};
ghost use Rattle.morphology.specs.Calls.{answered_by};
ghost use Rattle.morphology.specs.Refusals.{judged};
ghost use Rattle.morphology.specs.declared.call.Filter.TheVariants.{Erode, Dilate};
ghost use Rattle.plans.specs.Plan.{PlanOf};
ghost use Rattle.plans.specs.Shown.{lengths_of};
ghost use Rattle.filters.specs.Side.{side};
ghost use Rattle.filters.specs.Calls.{verdict, eroded_by, WhereRefused, Filtered};

use crate::course::stride;
use crate::side::{Joins, Meets, Side};
use crate::sweep::sweep;
use cells::kind::Kind;
use masks::mask::Mask;
use morphology::refusal::{Refusal, can_filter};
use plans::plan::Plan;
use sheets::holder::{Holder, Size};

// Erodes the sheet under the mask with the lent table, and answers the picks made; or says why not and alters nothing. The
// table may be longer than is needed. What it holds afterwards is not promised.
#[inline(always)]
pub fn erode<H: Holder>(holder: &mut H, mask: &Mask, table: &mut [H::Cell]) -> Result<u64, Refusal>
where
    H::Cell: Kind,
    ensures { Filtered H.Cell.Kind.lattice H.Cell.Kind.means H.Holder.sheet Erode mask.now holder.old holder.new table.old table.new result }
{
    filter::<H, Meets>(holder, Plan::of(mask), table)
}

// Dilates the sheet under the mask, likewise: an erosion on the other side of the lattice, under the turned mask.
#[inline(always)]
pub fn dilate<H: Holder>(holder: &mut H, mask: &Mask, table: &mut [H::Cell]) -> Result<u64, Refusal>
where
    H::Cell: Kind,
    ensures { Filtered H.Cell.Kind.lattice H.Cell.Kind.means H.Holder.sheet Dilate mask.now holder.old holder.new table.old table.new result }
{
    filter::<H, Joins>(holder, Plan::of_turned(mask), table)
}

// Erodes the sheet on the side S, for any mask and points that the plan is for. A dilation makes as many picks as an erosion.
#[inline(always)]
fn filter<H: Holder, S: Side>(
    holder: &mut H,
    plan: Plan,
    table: &mut [H::Cell],
) -> Result<u64, Refusal>
where
    H::Cell: Kind,
    ensures answer { (m : Mask) (ps : List Point) → PlanOf m.rows ps plan → result ≡ answered_by Erode (verdict (H.Holder.sheet holder.old) m (length table.old)) (H.Holder.sheet holder.old).width (H.Holder.sheet holder.old).height }
    ensures after { (m : Mask) (ps : List Point) → PlanOf m.rows ps plan → shown H.Cell.Kind.means (H.Holder.sheet holder.new) ≡ eroded_by (verdict (H.Holder.sheet holder.old) m (length table.old)) (side S.Side.lower H.Cell.Kind.lattice) ps (shown H.Cell.Kind.means (H.Holder.sheet holder.old)) }
    ensures refused { (m : Mask) (ps : List Point) → PlanOf m.rows ps plan → WhereRefused (verdict (H.Holder.sheet holder.old) m (length table.old)) ((H.Holder.sheet holder.new ≡ H.Holder.sheet holder.old) × (table.new ≡ table.old)) }
{
    let size = holder.size();
    admit(size, &plan, table.len())?;
    Ok(sweep::<H, S>(holder, plan, table, size))
}

// Whether a filter of a sheet of the size goes ahead by the plan with a table of so many cells, or why not: first the size is
// tried, then the table.
// That the size is small is asked by those who go on, and told by no type: it is the holder's size that they go by, and a type
// would have to be shown to have it.
pub(crate) fn admit(size: Size, plan: &Plan, cells: usize) -> Result<(), Refusal>
    ensures verdict { (m : Mask) (ps : List Point) → PlanOf m.rows ps plan.now → MatchResult result (λ _. judged size.width size.height (Some m) cells ≡ Ok m) (λ r. judged size.width size.height (Some m) cells ≡ Err r) }
    ensures room { IfOk result (λ _. ((1 ≤ size.width) × (size.width ≤ 2048)) × ((1 ≤ size.height) × (size.height ≤ 2048)) × (plan.now.rows * length (lengths_of plan.now) * (size.width + 30) ≤ cells)) }
{
    if !can_filter(size) {
        return Err(Refusal::WrongSize(size));
    }
    let needed = plan.rows * plan.lengths.as_slice().len() * stride(size.width);
    if cells < needed {
        return Err(Refusal::ShortTable {
            needed,
            lent: cells,
        });
    }
    Ok(())
}

// Whether a filter of a sheet of the size goes ahead under the mask with a table of so many cells: the mask itself, or why not.
pub fn judge(size: Size, mask: &Mask, cells: usize) -> Result<Mask, Refusal>
    ensures { result ≡ judged size.width size.height (Some mask.now) cells }
{
    admit(size, &Plan::of(mask), cells)?;
    Ok(*mask)
}
