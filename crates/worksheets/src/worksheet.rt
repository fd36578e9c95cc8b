// A worksheet, and its five calls: lay, erode, dilate, open and close.
ghost use Rattle.std.specs.Prelude.{◌≡◌, ℕ, Some, None, Err, MatchResult};
ghost use Rattle.sheets.specs.Sheet.{shown};
ghost use Rattle.morphology.specs.Calls.{new, verdict, after};
ghost use Rattle.morphology.specs.Refusals.{judged};
ghost use Rattle.morphology.specs.declared.call.Filter.TheVariants.{Erode, Dilate, Open, Close};
ghost use Rattle.morphology.specs.declared.call.Call.TheVariants.{Lay};
ghost use Rattle.worksheets.specs.Performed.{state, Performed};

use crate::masked;
use cells::kind::Kind;
use filters::filter;
use masks::mask::Mask;
use morphology::call::Filter;
use morphology::refusal::{Refusal, can_filter};
use sheets::holder::{Holder, Size};

// A holder, and the mask that lies on its sheet, if any.
#[derive(Drop)]
pub struct Worksheet<H> {
    pub(crate) holder: H,
    mask: Option<Mask>,
}

impl<H: Holder> Worksheet<H>
where
    H::Cell: Kind,
{
    // A new worksheet: no mask lies on it.
    pub fn new(holder: H) -> Worksheet<H>
        ensures shows { state H.Cell.Kind.means H.Holder.sheet result ≡ new (shown H.Cell.Kind.means (H.Holder.sheet holder)) }
        ensures holder { result.holder ≡ holder }
    {
        Worksheet { holder, mask: None }
    }

    // The holder, with what the filters left in it.
    pub fn into_holder(self) -> H
        ensures { result ≡ self.holder }
    {
        let Worksheet { holder, mask: _ } = self;
        holder
    }

    // The holder, to be asked.
    pub fn holder(&self) -> &H
        ensures { result.now ≡ self.now.holder }
    {
        &self.holder
    }

    // Lays the mask, in place of the one that lay before. The holder stays as it is.
    pub fn lay(&mut self, mask: Mask)
        ensures after { state H.Cell.Kind.means H.Holder.sheet self.new ≡ after H.Cell.Kind.lattice (Lay mask) (state H.Cell.Kind.means H.Holder.sheet self.old) }
        ensures holder { self.new.holder ≡ self.old.holder }
    {
        self.mask = Some(mask);
    }

    // Erodes the sheet under the mask that lies, with the lent table, and answers the picks made; or says why not.
    pub fn erode(&mut self, table: &mut [H::Cell]) -> Result<u64, Refusal>
        ensures { Performed H.Cell.Kind.lattice H.Cell.Kind.means H.Holder.sheet Erode self.old self.new table.old table.new result }
    {
        self.apply(Filter::Erode, table)
    }

    // Dilates the sheet, likewise.
    pub fn dilate(&mut self, table: &mut [H::Cell]) -> Result<u64, Refusal>
        ensures { Performed H.Cell.Kind.lattice H.Cell.Kind.means H.Holder.sheet Dilate self.old self.new table.old table.new result }
    {
        self.apply(Filter::Dilate, table)
    }

    // Opens the sheet: an erosion, and then a dilation. The answer is the picks of both.
    pub fn open(&mut self, table: &mut [H::Cell]) -> Result<u64, Refusal>
        ensures { Performed H.Cell.Kind.lattice H.Cell.Kind.means H.Holder.sheet Open self.old self.new table.old table.new result }
    {
        self.apply(Filter::Open, table)
    }

    // Closes the sheet: a dilation, and then an erosion. The answer is the picks of both.
    pub fn close(&mut self, table: &mut [H::Cell]) -> Result<u64, Refusal>
        ensures { Performed H.Cell.Kind.lattice H.Cell.Kind.means H.Holder.sheet Close self.old self.new table.old table.new result }
    {
        self.apply(Filter::Close, table)
    }

    // Applies the filter under the mask that lies, with the lent table, and answers the picks made; or says why not.
    pub fn apply(&mut self, filter: Filter, table: &mut [H::Cell]) -> Result<u64, Refusal>
        ensures { Performed H.Cell.Kind.lattice H.Cell.Kind.means H.Holder.sheet filter self.old self.new table.old table.new result }
    {
        let mask = self.laid()?;
        masked::filter(filter, &mut self.holder, &mask, table)
    }

    // The mask that a filter with a table of so many cells goes ahead under, or why it does not.
    pub(crate) fn judge(&self, cells: usize) -> Result<Mask, Refusal>
        ensures { result ≡ verdict (state H.Cell.Kind.means H.Holder.sheet self.now) cells }
    {
        let mask = self.laid()?;
        filter::judge(self.holder.size(), &mask, cells)
    }

    // The mask that lies, or why each filter is refused where none does.
    fn laid(&self) -> Result<Mask, Refusal>
        ensures { MatchResult result (λ m. self.now.mask ≡ Some m) (λ r. (n : ℕ) → verdict (state H.Cell.Kind.means H.Holder.sheet self.now) n ≡ Err r) }
    {
        self.mask.ok_or(unmasked(self.holder.size()))
    }
}

// Why a filter of a sheet of the size is refused where no mask lies, whatever its table: the size, or else the want of a mask.
fn unmasked(size: Size) -> Refusal
    ensures { (n : ℕ) → judged size.width size.height None n ≡ Err result }
{
    if can_filter(size) {
        Refusal::NoMask
    } else {
        Refusal::WrongSize(size)
    }
}
