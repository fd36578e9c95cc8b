// What a filter goes by.
ghost use Rattle.std.specs.Prelude.{◌≡◌, ◌+◌, ◌*◌, ◌≤◌, length};
ghost use Rattle.plans.specs.Shown.{lengths_of};

use plans::plan::Plan;

// The plan of the mask, the width of the sheet, and the cell that stands where the sheet has none.
#[derive(Drop)]
pub(crate) struct Course<K> {
    pub(crate) plan: Plan,
    pub(crate) width: usize,
    pub(crate) pad: K,
    ghost narrow: { width ≤ 2048 },
}

impl<K> Course<K> {
    // How many cells a line of the table has.
    pub(crate) fn stride(&self) -> usize
        ensures { result ≡ self.now.width + 30 }
    {
        stride(self.width)
    }

    // How many cells the lines of a slot have: one for each length.
    pub(crate) fn slot_cells(&self) -> usize
        ensures { result ≡ length (lengths_of self.now.plan) * (self.now.width + 30) }
    {
        self.plan.lengths.as_slice().len() * self.stride()
    }
}

// How many cells a line of the table has, for sheets of the width: those of a row, with 15 on either side.
pub(crate) fn stride(width: usize) -> usize
    requires { width ≤ 2048 }
    ensures { result ≡ width + 30 }
{
    width + 30
}
