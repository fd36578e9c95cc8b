// The filters of a holder's sheet under a mask, told as those of a worksheet on which the mask lies.
ghost use Rattle.morphology.specs.declared.call.Filter.TheVariants.{Erode, Dilate};
ghost use Rattle.filters.specs.Calls.{Filtered};
ghost use Rattle.worksheets.specs.Performed.{under, Performed};

use cells::kind::Kind;
use masks::mask::Mask;
use morphology::call::Filter;
use morphology::refusal::Refusal;
use sheets::holder::Holder;

// Filters the sheet. An opening is an erosion and then a dilation, a closing the other way round; the answer is the picks of
// both.
pub(crate) fn filter<H: Holder>(
    filter: Filter,
    holder: &mut H,
    mask: &Mask,
    table: &mut [H::Cell],
) -> Result<u64, Refusal>
where
    H::Cell: Kind,
    ensures { Performed H.Cell.Kind.lattice H.Cell.Kind.means H.Holder.sheet filter (under mask.now holder.old) (under mask.now holder.new) table.old table.new result }
{
    match filter {
        Filter::Erode => erode(holder, mask, table),
        Filter::Dilate => dilate(holder, mask, table),
        Filter::Open => Ok(erode(holder, mask, table)? + dilate(holder, mask, table)?),
        Filter::Close => Ok(dilate(holder, mask, table)? + erode(holder, mask, table)?),
    }
}

// Erodes the sheet. What the filter keeps on the stack, its plan and a row, is there while this call lasts: compiled into `filter`,
// it was there six times.
#[inline(never)]
fn erode<H: Holder>(holder: &mut H, mask: &Mask, table: &mut [H::Cell]) -> Result<u64, Refusal>
where
    H::Cell: Kind,
    ensures { Filtered H.Cell.Kind.lattice H.Cell.Kind.means H.Holder.sheet Erode mask.now holder.old holder.new table.old table.new result }
{
    filters::filter::erode(holder, mask, table)
}

// Dilates the sheet, likewise.
#[inline(never)]
fn dilate<H: Holder>(holder: &mut H, mask: &Mask, table: &mut [H::Cell]) -> Result<u64, Refusal>
where
    H::Cell: Kind,
    ensures { Filtered H.Cell.Kind.lattice H.Cell.Kind.means H.Holder.sheet Dilate mask.now holder.old holder.new table.old table.new result }
{
    filters::filter::dilate(holder, mask, table)
}
