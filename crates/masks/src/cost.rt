// What a filter under a mask costs.
ghost use Rattle.std.specs.Prelude.{◌≡◌, ◌+◌, ◌-◌, ◌*◌, ◌<◌, ◌≤◌, pos, ◌-ℤ◌, neg_ℤ, ◌≤ℤ◌, sum_by, unsigned_abs};
ghost use Rattle.std.specs.List.{AllByRecursion};
ghost use Rattle.masks.specs.Cost.{spanned, table_cells, line_picks, filter_picks, capped};
ghost use Rattle.masks.specs.Shown.{lengths_in};

use crate::chord::ChordList;
use crate::lengths::LengthList;
use crate::mask::Mask;

// V: how many rows there are from the mask's northmost point or the origin to its southmost point or the origin.
pub fn rows(mask: &Mask) -> usize
    ensures few { result ≤ 31 }
    ensures answer { result ≡ spanned mask.now.rows }
{
    let (north, south) = ChordList::of(mask).extent();
    span(north, south)
}

// How many cells a table needs for sheets of the width. The answer is exact where it is below 2^64 - 1.
pub fn table_cells(mask: &Mask, width: u64) -> u64
    ensures { result ≡ capped (table_cells mask.now.rows width) }
{
    let lines = rows(mask) as u64 * LengthList::of(mask).as_slice().len() as u64;
    width.saturating_add(30).saturating_mul(lines)
}

// How many picks an erosion or a dilation of a sheet of the size makes. The answer is exact where it is below 2^64 - 1.
pub fn filter_picks(mask: &Mask, width: u64, height: u64) -> u64
    ensures { result ≡ capped (filter_picks mask.now.rows width height) }
{
    let line = line_picks(&LengthList::of(mask), width);
    picks(
        rows(mask),
        line,
        ChordList::of(mask).as_slice().len(),
        width,
        height,
    )
}

// How many picks an opening or a closing makes: twice as many.
pub fn opening_picks(mask: &Mask, width: u64, height: u64) -> u64
    ensures { result ≡ capped (2 * filter_picks mask.now.rows width height) }
{
    let half = filter_picks(mask, width, height);
    half.saturating_add(half)
}

// How many rows there are from one to another.
fn span(north: i32, south: i32) -> usize
    requires { ((neg_ℤ (pos 15) ≤ℤ north) × (north ≤ℤ pos 0)) × ((pos 0 ≤ℤ south) × (south ≤ℤ pos 15)) }
    ensures few { result ≤ 31 }
    ensures answer { result ≡ unsigned_abs (south -ℤ north) + 1 }
{
    (south - north) as usize + 1
}

// The picks of a filter, from those of one table line.
fn picks(rows: usize, line: u64, chords: usize, width: u64, height: u64) -> u64
    requires { (1 ≤ rows) × (1 ≤ chords) }
    ensures { result ≡ capped ((height + rows - 1) * line + width * height * (chords - 1)) }
{
    let built = height.saturating_add(rows as u64 - 1).saturating_mul(line);
    let others = width
        .saturating_mul(height)
        .saturating_mul(chords as u64 - 1);
    built.saturating_add(others)
}

// The picks of one table line: those of each length after the first.
fn line_picks(lengths: &LengthList, width: u64) -> u64
    ensures { result ≡ capped (line_picks width (lengths_in lengths.now)) }
{
    lengths
        .as_slice()
        .split_first()
        .map_or(0, |(_, longer)| starts(longer, width))
}

// The starts of the lengths, added up.
fn starts(lengths: &[usize], width: u64) -> u64
    requires { AllByRecursion (λ a. a < 32) lengths.now }
    ensures { result ≡ capped (sum_by (λ a. width + 31 - a) lengths.now) }
{
    let mut sum: u64 = 0;
    for a in lengths {
        sum = sum.saturating_add(width.saturating_add(31 - *a as u64));
    }
    sum
}
