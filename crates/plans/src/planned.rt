// The chords of a plan.
ghost use Rattle.std.specs.Prelude.{◌≡◌, ◌+◌, ◌<◌, ◌≤◌, ◌++◌, [], ◌∷◌, length, MatchOption};

use crate::placed::PlannedChord;

// The chords of a plan, in the value itself: the first of the array, as many as are counted, so that a plan can be copied.
#[derive(Clone, Copy)]
pub struct PlannedChords {
    list: [PlannedChord; 496],
    count: usize,
    ghost few: { count ≤ 496 },
}

impl PlannedChords {
    ghost use Rattle.plans.specs.Shown.{planned_in};

    // These chords, where there is room for them: 496.
    pub fn of(chords: &[PlannedChord]) -> Option<PlannedChords>
        ensures { MatchOption result (496 < length chords.now) (λ l. planned_in l ≡ chords.now) }
    {
        if chords.len() > 496 {
            return None;
        }
        let mut list = PlannedChords::new();
        for c in chords {
            list.push(*c);
        }
        Some(list)
    }

    // No chords.
    pub(crate) fn new() -> PlannedChords
        ensures { planned_in result ≡ [] }
    {
        PlannedChords {
            list: [PlannedChord::default(); 496],
            count: 0,
        }
    }

    // Puts a chord behind those that are there.
    pub(crate) fn push(&mut self, c: PlannedChord)
        requires { length (planned_in self.old) < 496 }
        ensures items { planned_in self.new ≡ planned_in self.old ++ c ∷ [] }
        ensures count { length (planned_in self.new) ≡ length (planned_in self.old) + 1 }
    {
        self.list[self.count] = c;
        self.count += 1;
    }

    // The chords as a slice.
    pub fn as_slice(&self) -> &[PlannedChord]
        ensures { result.now ≡ planned_in self.now }
    {
        &self.list[0..self.count]
    }
}
