// A listing as text.
ghost use Rattle.std.specs.Prelude.{◌≡◌, IfOk, Some, string_bytes};
ghost use Rattle.jobs.specs.Texts.{cell_text, row_text, why_text, line_text, text};

use crate::fault::JobFault;
use crate::line::Line;
use std::alloc::{AllocError, Global};
use std::fmt;
use std::fmt::Write;
use strips::kind::CellKind;

// The text of a listing, each line ended by a line feed.
pub fn text(heap: Global, listing: &[Line]) -> Result<String, AllocError>
    ensures { IfOk result (λ s. string_bytes s ≡ text listing.now) }
{
    let mut text = String::new(heap);
    for line in listing {
        writeln!(text, "{line}")?;
    }
    Ok(text)
}

impl fmt::Display for Line {
    ghost output = { λ l. Some (line_text l) };

    fn fmt<W: fmt::Write>(&self, f: &mut fmt::Formatter<W>) -> fmt::Result {
        match self {
            Line::Refused(fault) => {
                let layer = fault.layer();
                let why = Why(*fault);
                write!(f, "{layer}{why}")
            }
            Line::Sheet { kind, size } => {
                write!(f, "sheet {kind} {} {}", size.width, size.height)
            }
            Line::Mask { points, chords } => write!(f, "mask {points} chords {chords}"),
            Line::Call(filter, Ok(picks)) => write!(f, "{filter} {picks}"),
            Line::Call(filter, Err(refusal)) => {
                let why = Why(JobFault::from(*refusal));
                write!(f, "{filter}{why}")
            }
            Line::Cells(kind, row) => {
                let row = ToldRow {
                    kind: *kind,
                    words: row.words(),
                };
                write!(f, "{row}")
            }
        }
    }
}

// That something was refused, the number, and the word that it is told with.
#[derive(Clone, Copy)]
struct Why(JobFault);

impl fmt::Display for Why {
    ghost output = { λ w. Some (why_text w.0) };

    fn fmt<W: fmt::Write>(&self, f: &mut fmt::Formatter<W>) -> fmt::Result {
        let number = self.0.number();
        match self.0.word() {
            Some(word) => write!(f, " refused {number} word {word}"),
            None => write!(f, " refused {number}"),
        }
    }
}

// The cells of a row by their words.
#[derive(Clone, Copy)]
struct ToldRow<'a> {
    kind: CellKind,
    words: &'a [u32],
}

// A blank stands between two of them.
impl fmt::Display for ToldRow<'_> {
    ghost output = { λ r. Some (row_text r.kind r.words.now) };

    fn fmt<W: fmt::Write>(&self, f: &mut fmt::Formatter<W>) -> fmt::Result {
        let kind = self.kind;
        let Some((first, rest)) = self.words.split_first() else {
            return Ok(());
        };
        let cell = ToldCell { kind, word: *first };
        write!(f, "{cell}")?;
        for word in rest {
            let cell = ToldCell { kind, word: *word };
            write!(f, " {cell}")?;
        }
        Ok(())
    }
}

// A cell by its word.
#[derive(Clone, Copy)]
struct ToldCell {
    kind: CellKind,
    word: u32,
}

// A number, of heights with its sign, or the eight digits of a return's bits.
impl fmt::Display for ToldCell {
    ghost output = { λ c. Some (cell_text c.kind c.word) };

    fn fmt<W: fmt::Write>(&self, f: &mut fmt::Formatter<W>) -> fmt::Result {
        let word = self.word;
        match self.kind {
            CellKind::Gray | CellKind::Flags => write!(f, "{word}"),
            CellKind::Height => {
                let height = word.cast_signed();
                write!(f, "{height}")
            }
            CellKind::Return => write!(f, "{word:08X}"),
        }
    }
}
