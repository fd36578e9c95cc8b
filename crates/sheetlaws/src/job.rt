// A job as text: a gray sheet, a mask, a threshold, and a list of openings and closings.
ghost use Rattle.std.specs.Prelude.{◌≡◌, MatchResult, Some};
ghost use Rattle.sheetlaws.specs.Reading.{sort_named, IsThreshold, NoThreshold};

use cells::gray::Gray;
use cells::threshold::Threshold;
use masks::cost;
use masks::mask::Mask;
use morphology::call::{Call, Filter};
use morphology::standing::Sort;
use sheets::holder::Size;
use std::alloc::Global;
use std::fmt;
use std::str::FromStr;
use texts::fault::{JobFault, Words};
use texts::line::Line;
use texts::mask::read_mask_in;
use texts::part::Part;
use texts::sheet::read_sheet_in;
use texts::view::Lines;

// The parts of a job, in their order.
const SHEET: Part<'static> = Part::Heading("sheet");

const MASK: Part<'static> = Part::Heading("mask");

const THRESHOLD: Part<'static> = Part::Setting("threshold");

const CALLS: Part<'static> = Part::Heading("calls");

// What a line of the threshold and one of a call are.
const THRESHOLD_RULE: &str = "a threshold is a whole number from 1 to 255";

const CALL_RULE: &str = "a call is open or close, and perhaps the cells of its table";

// The words for what is wrong with a job.
pub const WORDS: Words = Words {
    program: "sheetlaws",
    parts: Some("sheet, mask, threshold and calls"),
    cells: Some("whole numbers from 0 to 255"),
    no_text: "the job is no text",
    unread: "the job cannot be read",
    unwritten: "the listing cannot be written",
};

// A job that was read. The sheet's cells lie row by row.
#[derive(Drop)]
pub struct Job {
    pub size: Size,
    pub cells: Vec<Gray>,
    pub mask: Mask,
    pub threshold: Threshold,
    pub passes: Vec<Pass>,
}

// An opening or a closing, with a table of so many cells, or of as many as it needs.
#[derive(Clone, Copy)]
pub struct Pass {
    pub sort: Sort,
    pub cells: Option<usize>,
}

impl Pass {
    ghost use Rattle.sheetlaws.specs.Jobs.{pass_call};

    // The pass as a call, where a table needs so many cells.
    pub fn call(self, room: usize) -> Call
        ensures { result ≡ pass_call room self }
    {
        Call::Apply(Filter::from(self.sort), self.cells.unwrap_or(room))
    }
}

impl Job {
    ghost use Rattle.sheetlaws.specs.Jobs.{room};

    // Reads the lines of a job. What stands before its sheet is passed over.
    pub fn read(heap: Global, lines: &[String]) -> Result<Job, JobFault> {
        let (_, _, rest) = SHEET.cut_in(Lines::of(lines))?;
        let (sheet, _, rest) = MASK.cut_in(rest)?;
        let (mask, threshold, rest) = THRESHOLD.cut_in(rest)?;
        let (_, _, calls) = CALLS.cut_in(rest)?;
        let (size, levels) = read_sheet_in::<u8>(heap, sheet)?;
        Ok(Job {
            size,
            cells: levels.iter().map(|level| Gray(*level)).collect(heap)?,
            mask: read_mask_in(heap, mask)?,
            threshold: read_threshold(threshold)?,
            passes: read_calls(heap, calls)?,
        })
    }

    // How many cells a table needs for a filter of the sheet.
    pub fn table_cells(&self) -> usize
        ensures { result ≡ room self.now }
    {
        cost::table_cells(&self.mask, self.size.width as u64) as usize
    }
}

impl fmt::Display for Pass {
    ghost use Rattle.sheetlaws.specs.Names.{pass_text};

    ghost output = { λ p. Some (pass_text p) };

    fn fmt<W: fmt::Write>(&self, f: &mut fmt::Formatter<W>) -> fmt::Result {
        let filter = Filter::from(self.sort);
        match self.cells {
            Some(cells) => write!(f, "{filter} with {cells} cells"),
            None => write!(f, "{filter}"),
        }
    }
}

// The level that follows the word `threshold`.
fn read_threshold(line: Line) -> Result<Threshold, JobFault>
    ensures { MatchResult result (IsThreshold ⟦<u8 as FromStr>⟧.from_str_gives line.entry.text.now) (NoThreshold ⟦<u8 as FromStr>⟧.from_str_gives line.entry) }
{
    let fault = JobFault::NotAs {
        line: line.number,
        rule: THRESHOLD_RULE,
    };
    match line.value::<u8>() {
        Some(level) => Threshold::new(level).ok_or(fault),
        None => Err(fault),
    }
}

// The calls, each in a line of its own. Lines are a view of their texts, so they are asked by number.
fn read_calls(heap: Global, lines: Lines) -> Result<Vec<Pass>, JobFault> {
    (0..lines.len())
        .filter_map(|i| lines.get(i))
        .filter_map(|line| read_call(line).transpose())
        .try_collect(heap)
}

// The call of a line, or none where the line is blank.
fn read_call(line: Line) -> Result<Option<Pass>, JobFault> {
    let fault = JobFault::NotAs {
        line: line.number,
        rule: CALL_RULE,
    };
    let mut words = line.text.split_whitespace();
    match (words.next(), words.next(), words.next()) {
        (None, _, _) => Ok(None),
        (Some(name), None, _) => Ok(Some(Pass {
            sort: sort_of(name).ok_or(fault)?,
            cells: None,
        })),
        (Some(name), Some(cells), None) => Ok(Some(Pass {
            sort: sort_of(name).ok_or(fault)?,
            cells: Some(cells.parse::<usize>().map_err(|_| fault)?),
        })),
        _ => Err(fault),
    }
}

// The sort of a call.
fn sort_of(name: &str) -> Option<Sort>
    ensures { result ≡ sort_named name.now }
{
    match name {
        "open" => Some(Sort::Opening),
        "close" => Some(Sort::Closing),
        _ => None,
    }
}
