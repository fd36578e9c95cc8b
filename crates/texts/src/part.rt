// The parts of a job, each begun by a line.
ghost use Rattle.std.specs.Prelude.{◌≡◌, MatchOption, MatchResult, Some};
ghost use Rattle.texts.specs.Lines.{told, shown};
ghost use Rattle.texts.specs.Parts.{word_of, missing_text, Begins, Lacks, IsFirst, Cuts, IsBegunBy, LacksText};
ghost use Rattle.texts.specs.Views.{LacksIn, CutsIn, IsFirstText};

use crate::line::Line;
use crate::view::Lines;
use std::fmt;

// A part of a job, by the word that begins it.
#[derive(Clone, Copy, PartialEq, Eq, Debug)]
pub enum Part<'w> {
    // A line has the word alone, and the part lies behind it.
    Heading(&'w str),
    // A line has the word, and the part's value behind it.
    Setting(&'w str),
}

// No line begins the part, after those of the parts before it.
#[derive(Clone, Copy, PartialEq, Eq, Debug)]
pub struct Missing<'w>(pub Part<'w>);

impl<'w> Part<'w> {
    // The word that begins the part.
    pub fn word(self) -> &'w str
        ensures { result.now ≡ word_of self.entry }
    {
        match self {
            Part::Heading(word) | Part::Setting(word) => word,
        }
    }

    // Whether the line begins the part.
    pub fn begins(self, line: &str) -> bool
        ensures { Begins self.entry line.now result }
    {
        let mut words = line.split_whitespace();
        let first = words.next();
        let second = words.next();
        match self {
            Part::Heading(word) => first == Some(word) && second.is_none(),
            Part::Setting(word) => first == Some(word),
        }
    }

    // The same, by no more words than tell it: a second one is looked at behind the word of a heading alone.
    pub fn is_begun_by(self, line: &str) -> bool
        ensures { IsBegunBy self.entry line.now result }
    {
        let mut words = line.split_whitespace();
        match self {
            Part::Heading(word) => words.next() == Some(word) && words.next().is_none(),
            Part::Setting(word) => words.next() == Some(word),
        }
    }

    // The lines before the first that begins the part, that line, and those behind it.
    pub fn cut<'a, 'b>(
        self,
        lines: &'b [Line<'a>],
    ) -> Result<(&'b [Line<'a>], Line<'a>, &'b [Line<'a>]), Missing<'w>>
        ensures { MatchResult result (λ p. Cuts self.entry lines.now p.0.now p.1 p.2.now) (λ e. (e ≡ record { 0 = self.entry }) × Lacks self.entry lines.now) }
    {
        let at = self.place(lines).ok_or(Missing(self))?;
        Ok((&lines[..at], lines[at], &lines[at + 1..]))
    }

    // The place of the first line that begins the part.
    fn place(self, lines: &[Line]) -> Option<usize>
        ensures { MatchOption result (Lacks self.entry lines.now) (IsFirst self.entry lines.now) }
    {
        lines.iter().position(|line| self.begins(line.text))
    }

    // The lines of a view before the first that begins the part, that line, and those behind it.
    pub fn cut_in<'a>(
        self,
        lines: Lines<'a>,
    ) -> Result<(Lines<'a>, Line<'a>, Lines<'a>), Missing<'w>>
        ensures { MatchResult result (λ p. CutsIn self.entry (shown lines.entry) (shown p.0) (told p.1) (shown p.2)) (λ e. (e ≡ record { 0 = self.entry }) × LacksIn self.entry (shown lines.entry)) }
    {
        let texts = lines.texts;
        let at = self.place_in(texts).ok_or(Missing(self))?;
        let before = Lines {
            first: lines.first,
            texts: &texts[..at],
        };
        let line = Line {
            number: lines.first + at,
            text: texts[at].as_str(),
        };
        let behind = Lines {
            first: lines.first + at + 1,
            texts: &texts[at + 1..],
        };
        Ok((before, line, behind))
    }

    // The place of the first text that begins the part.
    fn place_in(self, texts: &[String]) -> Option<usize>
        ensures { MatchOption result (LacksText self.entry texts.now) (IsFirstText self.entry texts.now) }
    {
        texts
            .iter()
            .position(|text| self.is_begun_by(text.as_str()))
    }
}

impl fmt::Display for Missing<'_> {
    ghost output = { λ m. Some (missing_text m) };

    fn fmt<W: fmt::Write>(&self, f: &mut fmt::Formatter<W>) -> fmt::Result {
        let word = self.0.word();
        write!(f, "no line begins the {word}")
    }
}
