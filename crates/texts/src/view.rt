// Lines of a job that follow each other.
ghost use Rattle.std.specs.Prelude.{◌≡◌, ◌+◌, ◌<◌, ◌≤◌, ◌^◌, ◌∷◌, length, map, take, drop, string_bytes, MatchOption};

use crate::line::Line;

// Lines of a job that follow each other: the number of the first of them, and their texts.
#[derive(Clone, Copy)]
pub struct Lines<'a> {
    pub(crate) first: usize,
    pub(crate) texts: &'a [String],
    ghost within: { first + length texts.now < 2 ^ 63 },
}

impl<'a> Lines<'a> {
    ghost use Rattle.texts.specs.Lines.{told, numbered_from, shown};
    ghost use Rattle.texts.specs.Views.{before_in};

    // All lines of a job.
    pub fn of(texts: &'a [String]) -> Lines<'a>
        ensures { shown result ≡ numbered_from 1 (map string_bytes texts.now) }
    {
        Lines { first: 1, texts }
    }

    // How many they are.
    pub fn len(self) -> usize
        ensures { result ≡ length (shown self.entry) }
    {
        self.texts.len()
    }

    // The line at this place among them, if there is one.
    pub fn get(self, i: usize) -> Option<Line<'a>>
        ensures { MatchOption result (length (shown self.entry) ≤ i) (λ l. drop i (shown self.entry) ≡ told l ∷ drop (i + 1) (shown self.entry)) }
    {
        if i < self.len() {
            Some(self.at(i))
        } else {
            None
        }
    }

    // The first of them, so many, or all where there are no more.
    pub fn front(self, n: usize) -> Lines<'a>
        ensures { shown result ≡ take n (shown self.entry) }
    {
        let end = n.min(self.texts.len());
        Lines {
            first: self.first,
            texts: &self.texts[..end],
        }
    }

    // Those behind the first so many, or none where there are no more.
    pub fn behind(self, n: usize) -> Lines<'a>
        ensures { shown result ≡ drop n (shown self.entry) }
    {
        let from = n.min(self.texts.len());
        Lines {
            first: self.first + from,
            texts: &self.texts[from..],
        }
    }

    // The line at a place that there is.
    pub(crate) fn at(self, i: usize) -> Line<'a>
        requires { i < length (shown self) }
        ensures { drop i (shown self.entry) ≡ told result ∷ drop (i + 1) (shown self.entry) }
    {
        Line {
            number: self.first + i,
            text: self.texts[i].as_str(),
        }
    }

    // How many lines of the job stand before them.
    pub(crate) fn before(self) -> usize
        ensures { result ≡ before_in (shown self.entry) }
    {
        if self.texts.is_empty() {
            0
        } else {
            self.first.saturating_sub(1)
        }
    }
}
