// The mask itself: a set of points.
ghost use Rattle.std.specs.Prelude.{◌≡◌, ℕ, ◌-◌, ◌<◌, ◌≤◌, true, [], ◌∷◌, length, pos, ◌+ℤ◌, Some, None, Ok, Err, ◌≢◌, if◌then◌else◌, nat_lt};
ghost use Rattle.std.specs.List.{prefix_len, AllByRecursion};
ghost use Rattle.bits.specs.Bit.{bit};
ghost use Rattle.masks.specs.Points.{Earlier, InOrder, origin, turned, near_offset, near};
ghost use Rattle.masks.specs.Rows.{marked, holds, columns, points, Drawn};
ghost use Rattle.masks.specs.Faults.{refused};

use crate::fault::MaskFault;
use crate::point::Point;

// A mask: a flat structuring element with its origin at the point (0, 0), never without a point. Its rows are words, the
// northmost first, with a bit for each column from the left.
#[derive(Clone, Copy)]
#[repr(C)]
pub struct Mask {
    pub(crate) rows: [u32; 31],
    ghost some: { points rows 31 ≢ [] },
}

impl Mask {
    // The mask of the listed points; a point that is listed again counts once.
    pub fn from_points(list: &[Point]) -> Result<Mask, MaskFault>
        ensures answer { elim result [ Ok m ↦ (refused list.now ≡ None) × Drawn m.rows list.now | Err f ↦ refused list.now ≡ Some f ] }
    {
        if list.is_empty() {
            return Err(MaskFault::NoPoints);
        }
        match first_beyond(list) {
            Some(at) => Err(MaskFault::Beyond(at)),
            None => Ok(Mask { rows: drawn(list) }),
        }
    }

    // The mask of the origin alone.
    pub fn fresh() -> Mask
        ensures { Drawn result.rows (origin ∷ []) }
    {
        Mask {
            rows: drawn(&[Point { u: 0, v: 0 }]),
        }
    }

    // Whether the point is one of the mask's. Those that are make up the list of its points.
    pub fn holds(&self, p: Point) -> bool
        ensures answer { result ≡ holds self.now.rows p }
        ensures points { Drawn self.now.rows (points self.now.rows 31) }
    {
        is_near(p) && self.marked(grid_place(p.u), grid_place(p.v))
    }

    // How many points the mask has. Its list of points goes row by row, each row from the left, and has each once.
    pub fn count(&self) -> usize
        ensures answer { result ≡ length (points self.now.rows 31) }
        ensures once { InOrder Earlier (points self.now.rows 31) }
    {
        // By number: a row's points are asked by column and row.
        (0..31).map(|r| self.row_count(r)).sum()
    }

    // Whether a point stands in column c and row r of the grid.
    pub(crate) fn marked(&self, c: usize, r: usize) -> bool
        ensures { result ≡ marked self.now.rows c r }
    {
        c < 31 && r < 31 && bits::bit(self.rows[r], c as u32)
    }

    // How many points stand in row r of the grid. By number: what a filter of the columns lets pass took 3.5 times as many
    // instructions to count.
    fn row_count(&self, r: usize) -> usize
        ensures few { result ≤ 31 }
        ensures answer { result ≡ length (columns self.now.rows r 31) }
    {
        let mut n = 0;
        for c in 0..31 {
            if self.marked(c, r) {
                n += 1;
            }
        }
        n
    }

    // The mask turned about the origin: every point on the other side.
    pub fn turned(&self) -> Mask
        ensures { (p : Point) → holds result.rows p ≡ holds self.now.rows (turned p) }
    {
        // By number: with `map` and `reverse` the compiler took the words one by one, and eight times as many instructions.
        let mut rows = [0; 31];
        for r in 0..31 {
            rows[r] = reversed(self.rows[30 - r]);
        }
        Mask { rows }
    }
}

// Whether both offsets lie from -15 to 15.
fn is_near(p: Point) -> bool
    ensures { result ≡ near p }
{
    (-15..=15).contains(&p.u) && (-15..=15).contains(&p.v)
}

// The column of an offset u, or the row of an offset v, in the grid whose first column and row are at -15.
fn grid_place(offset: i32) -> usize
    requires { near_offset offset ≡ true }
    ensures within { result < 31 }
    ensures place { offset +ℤ pos 15 ≡ pos result }
{
    (offset + 15) as usize
}

// The place of the first point that is not near, if there is one.
fn first_beyond(list: &[Point]) -> Option<usize>
    ensures { result ≡ (if nat_lt (prefix_len near list.now) (length list.now) then Some (prefix_len near list.now) else None) }
{
    list.iter().position(|p| !is_near(*p))
}

// The rows that have just the listed points, all of which are near.
fn drawn(list: &[Point]) -> [u32; 31]
    requires { AllByRecursion (λ p. near p ≡ true) list.now }
    ensures { Drawn result list.now }
{
    let mut rows = [0; 31];
    for p in list {
        let r = grid_place(p.v);
        rows[r] = bits::with_bit(rows[r], grid_place(p.u) as u32);
    }
    rows
}

// The word with its 31 low bits in the opposite order.
fn reversed(word: u32) -> u32
    ensures { (c : ℕ) → c < 31 → bit c result ≡ bit (30 - c) word }
{
    word.reverse_bits() >> 1
}
