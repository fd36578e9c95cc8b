// The length list: the run lengths for which a filter's table has lines.
ghost use Rattle.std.specs.Prelude.{◌≡◌, ◌+◌, ◌<◌, ◌≤◌, not, ◌&&◌, length, take};
ghost use Rattle.std.specs.List.{AllByRecursion, AllByRecursion-prop};
ghost use Rattle.std.proofs.Props.{props};
ghost use Rattle.masks.specs.Chords.{chords};
ghost use Rattle.masks.specs.Lengths.{listed, ticked, reached, halved, rising, lengths, Serves};

use crate::chord::ChordList;
use crate::mask::Mask;

// The lengths in rising order, from 1 on, in the value itself: the first of the array, as many as are counted, so that it can be
// copied.
#[derive(Clone, Copy)]
pub struct LengthList {
    list: [usize; 31],
    count: usize,
    ghost few: { count ≤ 31 },
    ghost short: { AllByRecursion (λ a. a < 32) (take count list) } by { AllByRecursion-prop (λ a. a < 32) (λ a. Prim.hlevel props) (take count list) },
}

impl LengthList {
    ghost use Rattle.masks.specs.Shown.{chords_in, lengths_in};

    // The length list of the mask. It begins with 1, no length is more than twice the one before it, and each chord's
    // length is in it.
    pub fn of(mask: &Mask) -> LengthList
        ensures list { lengths_in result ≡ lengths (chords mask.now.rows 31) }
        ensures serves { Serves (chords mask.now.rows 31) (lengths (chords mask.now.rows 31)) }
    {
        LengthList::of_chords(&ChordList::of(mask))
    }

    // The length list of the chords.
    pub(crate) fn of_chords(chords: &ChordList) -> LengthList
        ensures { lengths_in result ≡ lengths (chords_in chords.now) }
    {
        rising(&halved(ticked(chords)))
    }

    // The lengths as a slice.
    pub fn as_slice(&self) -> &[usize]
        ensures items { result.now ≡ lengths_in self.now }
        ensures few { length result.now ≤ 31 }
        ensures short { AllByRecursion (λ a. a < 32) result.now }
    {
        &self.list[0..self.count]
    }
}

// The lengths of the chords, ticked.
fn ticked(chords: &ChordList) -> [bool; 32]
    ensures { result ≡ ticked (take chords.now.count chords.now.list) }
{
    let mut ticks = [false; 32];
    for c in chords.as_slice() {
        ticks[c.length] = true;
    }
    ticks
}

// Whether a listed number below a reaches it when doubled.
fn reached(ticks: &[bool; 32], a: usize) -> bool
    requires { a < 32 }
    ensures { result ≡ reached ticks.now a a }
{
    ticks[..a]
        .iter()
        .enumerate()
        .any(|(b, is_listed)| *is_listed && a <= b + b)
}

// Whether half of a is to join: a is listed, and nothing listed below it reaches it when doubled.
fn wants_half(ticks: &[bool; 32], a: usize) -> bool
    requires { a < 32 }
    ensures { result ≡ (listed ticks.now a && not (reached ticks.now a a)) }
{
    ticks[a] && !reached(ticks, a)
}

// The list with the halves that it lacks.
fn halved(start: [bool; 32]) -> [bool; 32]
    ensures { result ≡ halved start }
{
    let mut ticks = start;
    // By number: the list that is gone through is the one that is added to.
    for a in (2..32).rev() {
        if wants_half(&ticks, a) {
            ticks[(a + 1) / 2] = true;
        }
    }
    ticks
}

// The listed numbers from 1 on, in rising order.
fn rising(ticks: &[bool; 32]) -> LengthList
    ensures { take result.count result.list ≡ rising ticks.now 31 }
{
    let mut list = [0; 31];
    let mut count = 0;
    for (i, is_listed) in ticks[1..].iter().enumerate() {
        if *is_listed {
            list[count] = i + 1;
            count += 1;
        }
    }
    LengthList { list, count }
}
