// What can keep a program from its work, and the line that says so.
ghost use Rattle.std.specs.Prelude.{◌≡◌, Some};
ghost use Rattle.drawings.specs.declared.drawn.DrawnFault.TheVariants.{Unread as UnreadDrawing};
ghost use Rattle.texts.specs.declared.sheet.SheetFault.TheVariants.{WrongSize as WrongSheet};
ghost use Rattle.texts.specs.declared.fault.JobFault.TheVariants.{Missing as MissingPart, Sheet, Drawn, Input, Memory, Unwritten};
ghost use Rattle.texts.specs.Faults.{fault_text};

use crate::input::InputFault;
use crate::part::Missing;
use crate::sheet::SheetFault;
use crate::size::WrongSize;
use drawings::drawing::DrawingFault;
use drawings::drawn::DrawnFault;
use std::alloc::AllocError;
use std::{fmt, io};

// What is wrong with a job, or kept from it. Lines are told by their number in the job, from 1.
#[derive(Clone, Copy, PartialEq, Eq, Debug)]
pub enum JobFault {
    // The program's arguments are not what it takes, as these words say.
    Arguments(&'static str),
    // No line begins a part.
    Missing(Missing<'static>),
    // The sheet cannot be taken in.
    Sheet(SheetFault),
    // A drawing draws no mask.
    Drawn(DrawnFault),
    // A line is not as this rule wants it.
    NotAs { line: usize, rule: &'static str },
    // The input gives no lines.
    Input(InputFault),
    // What the program makes of the job cannot be written.
    Unwritten,
    // There is no memory for it; this says nothing of the job.
    Memory,
}

// What differs between programs where they tell a fault.
#[derive(Clone, Copy)]
pub struct Words {
    // The program's name.
    pub program: &'static str,
    // The parts that a job has, in their order, where it has parts.
    pub parts: Option<&'static str>,
    // What the cells of a job's sheet are, where a sheet is part of it.
    pub cells: Option<&'static str>,
    // That the input is no text.
    pub no_text: &'static str,
    // That the input cannot be read.
    pub unread: &'static str,
    // That what the program makes of the job cannot be written.
    pub unwritten: &'static str,
}

// A fault, with the words of the program that tells it.
#[derive(Clone, Copy)]
pub struct ToldJobFault {
    pub fault: JobFault,
    pub words: Words,
}

impl From<Missing<'static>> for JobFault {
    ghost from_gives = { λ f r. r ≡ MissingPart f };

    fn from(fault: Missing<'static>) -> JobFault {
        JobFault::Missing(fault)
    }
}

impl From<SheetFault> for JobFault {
    ghost from_gives = { λ f r. r ≡ Sheet f };

    fn from(fault: SheetFault) -> JobFault {
        JobFault::Sheet(fault)
    }
}

impl From<WrongSize> for JobFault {
    ghost from_gives = { λ s r. r ≡ Sheet (WrongSheet s) };

    fn from(refused: WrongSize) -> JobFault {
        JobFault::Sheet(SheetFault::WrongSize(refused))
    }
}

impl From<DrawnFault> for JobFault {
    ghost from_gives = { λ f r. r ≡ Drawn f };

    fn from(drawn: DrawnFault) -> JobFault {
        JobFault::Drawn(drawn)
    }
}

impl From<DrawingFault> for JobFault {
    ghost from_gives = { λ f r. r ≡ Drawn (UnreadDrawing f) };

    fn from(fault: DrawingFault) -> JobFault {
        JobFault::Drawn(DrawnFault::Unread(fault))
    }
}

impl From<InputFault> for JobFault {
    ghost from_gives = { λ f r. r ≡ Input f };

    fn from(fault: InputFault) -> JobFault {
        JobFault::Input(fault)
    }
}

// `?` converts but once, so that each fault takes in want of memory by itself.
impl From<AllocError> for JobFault {
    ghost from_gives = { λ _ r. r ≡ Memory };

    fn from(_e: AllocError) -> JobFault {
        JobFault::Memory
    }
}

// Input has a fault of its own, so that this is one of writing.
impl From<io::Error> for JobFault {
    ghost from_gives = { λ _ r. r ≡ Unwritten };

    fn from(_e: io::Error) -> JobFault {
        JobFault::Unwritten
    }
}

impl fmt::Display for ToldJobFault {
    ghost output = { λ t. Some (fault_text t.fault t.words) };

    fn fmt<W: fmt::Write>(&self, f: &mut fmt::Formatter<W>) -> fmt::Result {
        let words = self.words;
        match self.fault {
            JobFault::Arguments(rule) => f.write_str(rule),
            JobFault::Missing(fault) => match words.parts {
                Some(parts) => write!(f, "{fault}; a job has {parts}, in this order"),
                None => write!(f, "{fault}"),
            },
            JobFault::Sheet(fault) => match (fault, words.cells) {
                (SheetFault::NoCell(line), Some(cells)) => {
                    write!(f, "line {line}: a row of the sheet has {cells}")
                }
                _ => write!(f, "{fault}"),
            },
            JobFault::Drawn(fault) => write!(f, "{fault}"),
            JobFault::NotAs { line, rule } => write!(f, "line {line}: {rule}"),
            JobFault::Input(InputFault::NoText) => f.write_str(words.no_text),
            JobFault::Input(InputFault::Unread) => f.write_str(words.unread),
            JobFault::Unwritten => f.write_str(words.unwritten),
            JobFault::Input(InputFault::Memory) | JobFault::Memory => {
                f.write_str("there is not enough memory")
            }
        }
    }
}
