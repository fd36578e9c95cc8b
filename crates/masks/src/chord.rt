// Chords: runs of points in one row.
ghost use Rattle.std.specs.Prelude.{◌≡◌, ◌+◌, ◌<◌, ◌≤◌, ◌++◌, map, length, take, pos, neg_ℤ, ◌≤ℤ◌};
ghost use Rattle.std.specs.Int.{int_min, int_max};
ghost use Rattle.std.specs.List.{AllByRecursion, AllByRecursion-prop};
ghost use Rattle.std.proofs.Props.{props};
ghost use Rattle.masks.specs.Chords.{run, starts_at, starts, chord_at, chords, AllChords, OnGrid};
ghost use Rattle.masks.specs.Cost.{farthest};

use crate::mask::Mask;

// A run of points in one row that cannot be lengthened at either end: its row v, its first point's u, its number of points.
#[derive(Clone, Copy, PartialEq, Eq, Debug, Default)]
pub struct Chord {
    pub v: i32,
    pub start: i32,
    pub length: usize,
}

// The chords of a mask, in the value itself: 31 rows have room for 16 each. They are the first of the array, as many as are
// counted: a list of fixed capacity of the kit's cannot be copied, and this one can.
#[derive(Clone, Copy)]
pub struct ChordList {
    list: [Chord; 496],
    count: usize,
    ghost few: { count ≤ 496 },
    ghost on_grid: { AllByRecursion OnGrid (take count list) } by { AllByRecursion-prop OnGrid (λ c. Prim.hlevel props) (take count list) },
}

impl ChordList {
    ghost use Rattle.masks.specs.Shown.{chords_in};

    // The chords of the mask: just its maximal runs, row by row and each row from the left.
    pub fn of(mask: &Mask) -> ChordList
        ensures list { chords_in result ≡ chords mask.now.rows 31 }
        ensures runs { AllChords mask.now.rows (chords mask.now.rows 31) }
    {
        // By number: what starts in a row is asked by column and row.
        let mut list = [Chord::default(); 496];
        let mut count = 0;
        for r in 0..31 {
            count = mask.add_row(r, &mut list, count);
        }
        ChordList { list, count }
    }

    // The chords as a slice.
    pub fn as_slice(&self) -> &[Chord]
        ensures items { result.now ≡ chords_in self.now }
        ensures few { length result.now ≤ 496 }
        ensures on_grid { AllByRecursion OnGrid result.now }
    {
        &self.list[0..self.count]
    }

    // The northmost and the southmost row of the chords and the origin.
    pub fn extent(&self) -> (i32, i32)
        ensures around { ((neg_ℤ (pos 15) ≤ℤ result.0) × (result.0 ≤ℤ pos 0)) × ((pos 0 ≤ℤ result.1) × (result.1 ≤ℤ pos 15)) }
        ensures north { result.0 ≡ farthest int_min (λ c. c.v) (chords_in self.now) }
        ensures south { result.1 ≡ farthest int_max (λ c. c.v) (chords_in self.now) }
    {
        let mut north: i32 = 0;
        let mut south: i32 = 0;
        for c in self.as_slice() {
            north = north.min(c.v);
            south = south.max(c.v);
        }
        (north, south)
    }
}

impl Mask {
    // Writes the chords of row r behind the first `count` of the list, and answers how many there are now. By number: what is
    // there already lies before them.
    fn add_row(&self, r: usize, list: &mut [Chord; 496], count: usize) -> usize
        requires { (r < 31) × (count + 16 ≤ 496) }
        ensures answer { result ≡ count + length (starts self.now.rows r 31) }
        ensures after { take result list.new ≡ take count list.old ++ map (chord_at self.now.rows r) (starts self.now.rows r 31) }
    {
        let mut n = count;
        for c in 0..31 {
            if self.starts(c, r) {
                list[n] = self.chord_at(c, r);
                n += 1;
            }
        }
        n
    }

    // Whether a chord starts in column c of row r: a point stands there, and none to its left.
    fn starts(&self, c: usize, r: usize) -> bool
        ensures { result ≡ starts_at self.now.rows r c }
    {
        self.marked(c, r) && (c == 0 || !self.marked(c - 1, r))
    }

    // The chord that starts in column c of row r.
    fn chord_at(&self, c: usize, r: usize) -> Chord
        requires { (c < 31) × (r < 31) }
        ensures { result ≡ chord_at self.now.rows r c }
    {
        Chord {
            v: r as i32 - 15,
            start: c as i32 - 15,
            length: self.run(c, r),
        }
    }

    // How many points follow each other in row r from column c to the right.
    #[tactic(auto, unfolding(crate::specs::Chords::run))]
    fn run(&self, c: usize, r: usize) -> usize
        requires { c < 31 }
        ensures { result ≡ run self.now.rows c r }
    {
        (c..c + 31).take_while(|k| self.marked(*k, r)).count()
    }
}
