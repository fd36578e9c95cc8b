// Why a strip is refused.
ghost use Rattle.std.specs.Prelude.{◌≡◌, Some};
ghost use Rattle.strips.specs.Faults.{ground_number, number, told_word};
ghost use Rattle.strips.specs.Told.{ground_text, wrong_text, fault_text};

use std::fmt;

// What is wrong with a word.
#[derive(Clone, Copy, PartialEq, Eq, Debug)]
pub enum Ground {
    // Fewer than four bytes stand where a word is due.
    CutShort,
    // The kind is not 1 to 7, the call not 1 to 4, or an unused bit is set.
    NoWord,
    // The word is not due there, or bytes follow the end word.
    OutOfOrder,
    // The head's kind of cell is not 1 to 4.
    NoKind,
    // The cells word is not the width times the height.
    WrongCount,
    // The raw word is no cell of the head's kind.
    NoCell,
}

impl Ground {
    // The number under which it is told.
    fn number(self) -> u8
        ensures { result ≡ ground_number self }
    {
        match self {
            Ground::CutShort => 2,
            Ground::NoWord => 3,
            Ground::OutOfOrder => 4,
            Ground::NoKind | Ground::WrongCount => 5,
            Ground::NoCell => 6,
        }
    }
}

impl fmt::Display for Ground {
    ghost output = { λ g. Some (ground_text g) };

    fn fmt<W: fmt::Write>(&self, f: &mut fmt::Formatter<W>) -> fmt::Result {
        f.write_str(match self {
            Ground::CutShort => "a word is due, and fewer than four bytes stand there",
            Ground::NoWord => "this is none of the words",
            Ground::OutOfOrder => "this word is not due here",
            Ground::NoKind => "there is no such kind of cell",
            Ground::WrongCount => "the cells are not width times height",
            Ground::NoCell => "the word is no cell of the head's kind",
        })
    }
}

// A refusal of a strip.
#[derive(Clone, Copy, PartialEq, Eq, Debug)]
pub enum StripFault {
    // The strip has over 65,536 bytes.
    TooLong,
    // What is wrong, and the number of the word where it is found.
    At(Ground, usize),
}

impl StripFault {
    // The number under which the refusal is told.
    pub fn number(self) -> u8
        ensures { result ≡ number self }
    {
        match self {
            StripFault::TooLong => 1,
            StripFault::At(ground, _) => ground.number(),
        }
    }

    // The word that it is told with; words count from 0.
    pub fn word(self) -> usize
        ensures { result ≡ told_word self }
    {
        match self {
            StripFault::TooLong => 16_384,
            StripFault::At(_, word) => word,
        }
    }
}

impl fmt::Display for StripFault {
    ghost output = { λ f. Some (fault_text f) };

    fn fmt<W: fmt::Write>(&self, f: &mut fmt::Formatter<W>) -> fmt::Result {
        let number = self.number();
        let word = self.word();
        let wrong = Wrong(*self);
        write!(f, "refused {number}: word {word}: {wrong}")
    }
}

// What is wrong with a strip.
#[derive(Clone, Copy)]
struct Wrong(StripFault);

impl fmt::Display for Wrong {
    ghost output = { λ w. Some (wrong_text w.0) };

    fn fmt<W: fmt::Write>(&self, f: &mut fmt::Formatter<W>) -> fmt::Result {
        match self.0 {
            StripFault::TooLong => f.write_str("a strip has at most 65536 bytes"),
            StripFault::At(ground, _) => write!(f, "{ground}"),
        }
    }
}
