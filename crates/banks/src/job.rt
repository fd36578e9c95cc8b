// A job as text: a grid of heights, the mask of a mid, the fore and the back mask of a find, and the length of a list.
ghost use Rattle.std.specs.Prelude.{MatchResult};
ghost use Rattle.banks.specs.Lists.{IsLength, NoLength};

use cells::height::Height;
use masks::mask::Mask;
use sheets::holder::Size;
use std::alloc::Global;
use std::str::FromStr;
use texts::fault::{JobFault, Words};
use texts::line::Line;
use texts::mask::read_mask_in;
use texts::part::Part;
use texts::sheet::read_sheet_in;
use texts::view::Lines;

// The parts of a job, in their order.
const SHEET: Part<'static> = Part::Heading("sheet");

const MASK: Part<'static> = Part::Heading("mask");

const FORE: Part<'static> = Part::Heading("fore");

const BACK: Part<'static> = Part::Heading("back");

const LIST: Part<'static> = Part::Setting("list");

// The longest list of places.
const MOST_PLACES: usize = 65_536;

// What a line of the list is.
const LIST_RULE: &str = "a list has a whole number of places, from 0 to 65536";

// The words for what is wrong with a job.
pub const WORDS: Words = Words {
    program: "banks",
    parts: Some("sheet, mask, fore, back and list"),
    cells: Some("whole numbers of millimetres, of 32 bits"),
    no_text: "the job is no text",
    unread: "the job is no text",
    unwritten: "the listing cannot be written",
};

// A job that was read. The sheet's cells lie row by row.
#[derive(Drop)]
pub struct Job {
    pub size: Size,
    pub cells: Vec<Height>,
    pub mask: Mask,
    pub fore: Mask,
    pub back: Mask,
    pub places: usize,
}

impl Job {
    // Reads the lines of a job. What stands before its sheet is passed over.
    pub fn read(alloc: Global, lines: &[String]) -> Result<Job, JobFault> {
        let (_, _, rest) = SHEET.cut_in(Lines::of(lines))?;
        let (sheet, _, rest) = MASK.cut_in(rest)?;
        let (mask, _, rest) = FORE.cut_in(rest)?;
        let (fore, _, rest) = BACK.cut_in(rest)?;
        let (back, list, _) = LIST.cut_in(rest)?;
        let (size, numbers) = read_sheet_in::<i32>(alloc, sheet)?;
        Ok(Job {
            size,
            cells: numbers.iter().map(|n| Height(*n)).collect(alloc)?,
            mask: read_mask_in(alloc, mask)?,
            fore: read_mask_in(alloc, fore)?,
            back: read_mask_in(alloc, back)?,
            places: read_list(list)?,
        })
    }
}

// How many places the list has.
fn read_list(line: Line) -> Result<usize, JobFault>
    ensures { MatchResult result (IsLength ⟦<usize as FromStr>⟧.from_str_gives line.entry.text.now) (NoLength ⟦<usize as FromStr>⟧.from_str_gives line.entry) }
{
    let fault = JobFault::NotAs {
        line: line.number,
        rule: LIST_RULE,
    };
    match line.value::<usize>() {
        Some(places) if places <= MOST_PLACES => Ok(places),
        _ => Err(fault),
    }
}
