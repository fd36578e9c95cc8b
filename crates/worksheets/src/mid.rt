// Mid: halfway between the opening and the closing of a sheet whose cells have levels. The loops go by number, since the
// places of a holder are no list.
ghost use Rattle.std.specs.Prelude.{◌≡◌, ◌&&◌, length, Ok, ◌==◌, nat_lt};
ghost use Rattle.masks.specs.declared.mask.Mask.{Mask};
ghost use Rattle.sheets.specs.Sheet.{inside, shown};
ghost use Rattle.morphology.specs.Filters.{points_of};
ghost use Rattle.morphology.specs.Mid.{Between};
ghost use Rattle.worksheets.specs.Mid.{Blended, judged_sheets, PerformedMid};

use crate::masked::filter;
use crate::worksheet::Worksheet;
use cells::kind::Measured;
use morphology::call::Filter;
use morphology::refusal::Refusal;
use sheets::copy::copy_into;
use sheets::holder::Holder;

impl<H: Holder> Worksheet<H>
where
    H::Cell: Measured,
{
    // Leaves the closing of the sheet in the second holder, of which only the size counts before, and on the worksheet the
    // midway of opening and closing, cell by cell. Answers the picks of both, or says why not and alters nothing.
    pub fn mid<G: Holder<Cell = H::Cell>>(
        &mut self,
        second: &mut G,
        table: &mut [H::Cell],
    ) -> Result<u64, Refusal>
        ensures performed { PerformedMid H.Cell.Kind.lattice H.Cell.Kind.means H.Cell.Measured.level H.Holder.sheet G.Holder.sheet self.old self.new second.old second.new table.old table.new result }
        ensures between { (m : Mask) → judged_sheets (H.Holder.sheet self.old.holder) (G.Holder.sheet second.old) self.old.mask (length table.old) ≡ Ok m → Between H.Cell.Kind.lattice H.Cell.Kind.means (points_of m) (shown H.Cell.Kind.means (H.Holder.sheet self.old.holder)) (H.Holder.sheet self.new.holder) }
    {
        let mask = self.judge(table.len())?;
        let size = self.holder.size();
        let other = second.size();
        if size != other {
            return Err(Refusal::UnlikeSizes {
                first: size,
                second: other,
            });
        }
        let _ = copy_into(&self.holder, second);
        let opening = self.open(table)?;
        let closing = filter(Filter::Close, second, &mask, table)?;
        blend(&mut self.holder, second);
        Ok(opening + closing)
    }
}

// Puts the midway of the two cells at each place where both holders have one.
fn blend<H: Holder, G: Holder<Cell = H::Cell>>(first: &mut H, second: &G)
where
    H::Cell: Measured,
    ensures { Blended H.Cell.Kind.lattice H.Cell.Kind.means H.Cell.Measured.level (inside (H.Holder.sheet first.old).width (H.Holder.sheet first.old).height) (H.Holder.sheet first.old) (G.Holder.sheet second.now) (H.Holder.sheet first.new) }
{
    let size = first.size();
    for y in 0..size.height {
        blend_row(first, second, size.width, y);
    }
}

// The same, in the first w columns of row y.
fn blend_row<H: Holder, G: Holder<Cell = H::Cell>>(first: &mut H, second: &G, w: usize, y: usize)
where
    H::Cell: Measured,
    ensures { Blended H.Cell.Kind.lattice H.Cell.Kind.means H.Cell.Measured.level (λ i j. nat_lt i w && j == y) (H.Holder.sheet first.old) (G.Holder.sheet second.now) (H.Holder.sheet first.new) }
{
    for x in 0..w {
        blend_cell(first, second, x, y);
    }
}

// The same, at one place.
fn blend_cell<H: Holder, G: Holder<Cell = H::Cell>>(first: &mut H, second: &G, x: usize, y: usize)
where
    H::Cell: Measured,
    ensures { Blended H.Cell.Kind.lattice H.Cell.Kind.means H.Cell.Measured.level (λ i j. i == x && j == y) (H.Holder.sheet first.old) (G.Holder.sheet second.now) (H.Holder.sheet first.new) }
{
    if let Some(a) = first.cell(x, y) {
        if let Some(b) = second.cell(x, y) {
            let _ = first.put(x, y, a.midway(b));
        }
    }
}
