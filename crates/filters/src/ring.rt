// The ring of table lines, and the rows that are gathered from it.
ghost use Rattle.std.specs.Prelude.{◌≡◌, ◌+◌, ◌-◌, ◌*◌, ◌<◌, ◌≤◌, length, slice_range};
ghost use Rattle.masks.specs.Cost.{line_picks};
ghost use Rattle.sheets.specs.Sheet.{Sheet};
ghost use Rattle.plans.specs.Shown.{lengths_of, chords_of};
ghost use Rattle.filters.specs.Side.{side};
ghost use Rattle.filters.specs.Line.{Holds, Beside};
ghost use Rattle.filters.specs.Sweep.{SameFrom, next_slot, Stands, Laid};

use crate::course::Course;
use crate::line::take_line;
use crate::side::Side;
use cells::kind::Kind;
use plans::plan::Plan;
use sheets::holder::Holder;

// The slots of a chord table, V of them, and the one in which the next line is due. The table itself is lent to each call: a
// ring that kept it would have to promise in each that it still keeps the same, and as long.
#[derive(Drop)]
pub(crate) struct Ring<K> {
    pub(crate) course: Course<K>,
    pub(crate) slot: usize,
    ghost due: { slot < course.plan.rows },
}

impl<K: Kind> Ring<K> {
    // A ring without lines, for sheets of the width.
    pub(crate) fn new(plan: Plan, width: usize, pad: K) -> Ring<K>
        requires { width ≤ 2048 }
        ensures plan { result.course.plan ≡ plan }
        ensures width { result.course.width ≡ width }
        ensures pad { result.course.pad ≡ pad }
        ensures slot { result.slot ≡ 0 }
    {
        let course = Course { plan, width, pad };
        Ring { course, slot: 0 }
    }

    // Takes the lines before those that complete a row, V - 1 of them, each into the slot of its number, and answers the picks
    // made. A place without a cell stands as the padding. Lines are no list: some of them lie above the sheet.
    #[inline(always)]
    pub(crate) fn first_lines<H: Holder<Cell = K>, S: Side>(
        &mut self,
        h: &H,
        table: &mut [K],
    ) -> u64
        requires start { self.old.slot ≡ 0 }
        requires room { self.old.course.plan.rows * length (lengths_of self.old.course.plan) * (self.old.course.width + 30) ≤ length table.old }
        ensures few { result ≤ 30 * 64418 }
        ensures picks { result ≡ (self.old.course.plan.rows - 1) * line_picks self.old.course.width (lengths_of self.old.course.plan) }
        ensures course { self.new.course ≡ self.old.course }
        ensures slot { self.new.slot ≡ self.old.course.plan.rows - 1 }
        ensures ring { Stands (side S.Side.lower K.Kind.lattice) K.Kind.means self.old.course (H.Holder.sheet h.now) table.new (self.old.course.plan.rows - 1) (self.old.course.plan.rows - 1) (self.old.course.plan.rows - 1) }
    {
        let mut picks = 0;
        for line in 0..self.course.plan.rows - 1 {
            picks += self.take::<H, S>(h, line, table);
        }
        picks
    }

    // Takes the line that completes row `y`, gathers the row in the slot after it, and answers the picks made. Rows of the
    // sheet before row `y` are not read.
    #[inline(always)]
    pub(crate) fn next_row<H: Holder<Cell = K>, S: Side>(
        &mut self,
        h: &H,
        y: usize,
        table: &mut [K],
    ) -> u64
        requires row { y ≤ 2048 }
        requires room { self.old.course.plan.rows * length (lengths_of self.old.course.plan) * (self.old.course.width + 30) ≤ length table.old }
        ensures few { result ≤ 64418 + 2048 * 495 }
        ensures picks { result ≡ line_picks self.old.course.width (lengths_of self.old.course.plan) + self.old.course.width * (length (chords_of self.old.course.plan) - 1) }
        ensures course { self.new.course ≡ self.old.course }
        ensures slot { self.new.slot ≡ next_slot self.old.course.plan.rows self.old.slot }
        ensures row { (s : Sheet K) → SameFrom y s (H.Holder.sheet h.now) → Stands (side S.Side.lower K.Kind.lattice) K.Kind.means self.old.course s table.old self.old.slot (y + self.old.course.plan.rows - 1) (self.old.course.plan.rows - 1) → Laid (side S.Side.lower K.Kind.lattice) K.Kind.means self.old.course s table.new (self.new.slot * length (lengths_of self.old.course.plan) * (self.old.course.width + 30)) y × Stands (side S.Side.lower K.Kind.lattice) K.Kind.means self.old.course s table.new self.new.slot (y + self.old.course.plan.rows) (self.old.course.plan.rows - 1) }
    {
        let line = y + self.course.plan.rows - 1;
        let taken = self.take::<H, S>(h, line, table);
        let picked = self.gather::<S>(table);
        taken + picked
    }

    // Takes a line into the slot in which it is due, and answers the picks made. It is inlined for the same reason as what it
    // calls.
    #[inline(always)]
    fn take<H: Holder<Cell = K>, S: Side>(&mut self, h: &H, line: usize, table: &mut [K]) -> u64
        requires { self.old.course.plan.rows * length (lengths_of self.old.course.plan) * (self.old.course.width + 30) ≤ length table.old }
        ensures few { result ≤ 31 * 2078 }
        ensures picks { result ≡ line_picks self.old.course.width (lengths_of self.old.course.plan) }
        ensures course { self.new.course ≡ self.old.course }
        ensures slot { self.new.slot ≡ next_slot self.old.course.plan.rows self.old.slot }
        ensures holds { Holds (side S.Side.lower K.Kind.lattice) K.Kind.means (K.Kind.means self.old.course.pad) (H.Holder.sheet h.now) self.old.course.plan self.old.course.width table.new (self.old.slot * length (lengths_of self.old.course.plan) * (self.old.course.width + 30)) line }
        ensures beside { Beside K.Kind.means table.old table.new (self.old.slot * length (lengths_of self.old.course.plan) * (self.old.course.width + 30)) (self.old.slot * length (lengths_of self.old.course.plan) * (self.old.course.width + 30) + length (lengths_of self.old.course.plan) * (self.old.course.width + 30)) }
    {
        let start = self.start();
        let end = start + self.course.slot_cells();
        let picks = take_line::<H, S>(h, &self.course, line, &mut table[start..end]);
        self.slot = self.next();
        picks
    }

    // The slot after the one that is due.
    fn next(&self) -> usize
        ensures { result ≡ next_slot self.now.course.plan.rows self.now.slot }
    {
        if self.slot + 1 < self.course.plan.rows {
            self.slot + 1
        } else {
            0
        }
    }

    // Where the lines of the slot that is due begin in the table.
    pub(crate) fn start(&self) -> usize
        ensures { result ≡ self.now.slot * length (lengths_of self.now.course.plan) * (self.now.course.width + 30) }
    {
        self.slot * self.course.slot_cells()
    }

    // The row that was gathered last.
    pub(crate) fn row<'a>(&self, table: &'a [K]) -> &'a [K]
        requires { self.now.course.plan.rows * length (lengths_of self.now.course.plan) * (self.now.course.width + 30) ≤ length table.now }
        ensures { result.now ≡ slice_range table.now (self.now.slot * length (lengths_of self.now.course.plan) * (self.now.course.width + 30)) (self.now.slot * length (lengths_of self.now.course.plan) * (self.now.course.width + 30) + self.now.course.width) }
    {
        let start = self.start();
        &table[start..start + self.course.width]
    }
}
