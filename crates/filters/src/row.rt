// A row of the result: gathered from the chords, and put on the sheet.
ghost use Rattle.std.specs.Prelude.{◌≡◌, ℕ, ◌+◌, ◌-◌, ◌*◌, ◌<◌, ◌≤◌, true, ◌≢◌, length, Some};
ghost use Rattle.std.specs.Option.{option_map};
ghost use Rattle.sheets.specs.Sheet.{has};
ghost use Rattle.plans.specs.Sound.{Within};
ghost use Rattle.plans.specs.Shown.{lengths_of, chords_of};
ghost use Rattle.filters.specs.Side.{side, cell_at};
ghost use Rattle.filters.specs.Line.{Beside};
ghost use Rattle.filters.specs.Row.{slot_of, base_of, run_of, picked};

use crate::ring::Ring;
use crate::side::Side;
use cells::kind::Kind;
use plans::placed::PlannedChord;
use sheets::holder::Holder;

impl<K: Kind> Ring<K> {
    // Gathers a row of the result: at each column the pick over the chords, and answers the picks made. The row is gathered in
    // an array of its own and then laid over the oldest line, which stands in the slot that is due and which no later row
    // needs. Four chords are picked at once, so that the row is read and written a fourth as often. It is one function, and its
    // columns go by number: an array of cells of any size can be lent neither whole nor as a slice, and two lists in step leave
    // none known.
    #[inline(always)]
    pub(crate) fn gather<S: Side>(&self, table: &mut [K]) -> u64
        requires { self.now.course.plan.rows * length (lengths_of self.now.course.plan) * (self.now.course.width + 30) ≤ length table.old }
        ensures picks { result ≡ self.now.course.width * (length (chords_of self.now.course.plan) - 1) }
        ensures cells { (z : K.Kind.Cell) (x : ℕ) → x < self.now.course.width → cell_at K.Kind.means z table.new (self.now.slot * length (lengths_of self.now.course.plan) * (self.now.course.width + 30) + x) ≡ picked (side S.Side.lower K.Kind.lattice) (run_of K.Kind.means z table.old self.now.course.plan (self.now.course.width + 30) self.now.slot x) (length (chords_of self.now.course.plan) - 1) }
        ensures beside { Beside K.Kind.means table.old table.new (self.now.slot * length (lengths_of self.now.course.plan) * (self.now.course.width + 30)) (self.now.slot * length (lengths_of self.now.course.plan) * (self.now.course.width + 30) + self.now.course.width) }
    {
        let width = self.course.width;
        let chords = self.course.plan.chords.as_slice();
        let mut row = [S::pad::<K>(); 2048];
        let first = self.base(chords[0]);
        for i in 0..width {
            row[i] = table[first + i];
        }
        let mut picks = 0;
        let last = (chords.len() - 1) / 4 * 4;
        for four in 0..last / 4 {
            let a = self.base(chords[four * 4 + 1]);
            let b = self.base(chords[four * 4 + 2]);
            let c = self.base(chords[four * 4 + 3]);
            let d = self.base(chords[four * 4 + 4]);
            for x in 0..width {
                let near = S::pick(S::pick(row[x], table[a + x]), table[b + x]);
                row[x] = S::pick(S::pick(near, table[c + x]), table[d + x]);
                picks += 4;
            }
        }
        for chord in &chords[last + 1..] {
            let from = self.base(*chord);
            for x in 0..width {
                row[x] = S::pick(row[x], table[from + x]);
                picks += 1;
            }
        }
        let start = self.start();
        for c in 0..width {
            table[start + c] = row[c];
        }
        picks
    }

    // Where the run of a chord for column 0 stands in the table.
    fn base(&self, c: PlannedChord) -> usize
        requires { Within self.now.course.plan.rows (length (lengths_of self.now.course.plan)) c }
        ensures place { result ≡ base_of self.now.course.plan.rows (length (lengths_of self.now.course.plan)) (self.now.course.width + 30) self.now.slot c }
        ensures room { result + (self.now.course.width + 30) ≤ self.now.course.plan.rows * length (lengths_of self.now.course.plan) * (self.now.course.width + 30) + 30 }
    {
        let line = self.slot_of(c.row) * self.course.plan.lengths.as_slice().len() + c.index;
        line * self.course.stride() + c.column
    }

    // The slot that has row `r` of the mask.
    fn slot_of(&self, r: usize) -> usize
        requires { r < self.now.course.plan.rows }
        ensures answer { result ≡ slot_of self.now.course.plan.rows self.now.slot r }
        ensures below { result < self.now.course.plan.rows }
    {
        let rows = self.course.plan.rows;
        if self.slot + r < rows {
            self.slot + r
        } else {
            self.slot + r - rows
        }
    }
}

// Puts the row in place of row `y` of the sheet. The columns go by number, up to the holder's width: that each of them lies on
// the sheet is known to the compiler then, which copies the row whole.
#[inline(always)]
pub(crate) fn put_row<H: Holder>(h: &mut H, y: usize, row: &[H::Cell])
where
    H::Cell: Kind,
    requires wide { (H.Holder.sheet h.old).width ≡ length row.now }
    requires on { (x : ℕ) → x < length row.now → has (H.Holder.sheet h.old) x y ≡ true }
    ensures width { (H.Holder.sheet h.new).width ≡ (H.Holder.sheet h.old).width }
    ensures height { (H.Holder.sheet h.new).height ≡ (H.Holder.sheet h.old).height }
    ensures cells { (z : H.Cell.Kind.Cell) (x : ℕ) → x < length row.now → option_map H.Cell.Kind.means ((H.Holder.sheet h.new).cell x y) ≡ Some (cell_at H.Cell.Kind.means z row.now x) }
    ensures beside { (i j : ℕ) → length row.now ≤ i → (H.Holder.sheet h.new).cell i j ≡ (H.Holder.sheet h.old).cell i j }
    ensures rest { (i j : ℕ) → j ≢ y → (H.Holder.sheet h.new).cell i j ≡ (H.Holder.sheet h.old).cell i j }
{
    let mut x = 0;
    while x < h.size().width {
        let _ = h.put(x, y, row[x]);
        x += 1;
    }
}
