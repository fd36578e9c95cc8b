// The sheet of a job.
ghost use Rattle.std.specs.Prelude.{◌≡◌, ◌≤◌, ◌<◌, ◌^◌, IfOk, IfErr, Some, None, length, take};
ghost use Rattle.texts.specs.Faults.{sheet_text};
ghost use Rattle.texts.specs.Lines.{shown};
ghost use Rattle.texts.specs.Sheets.{IsRow, RowFault, agrees, grown, none, Grid, GridFault, SheetRead};
ghost use Rattle.texts.specs.Views.{GridIn, GridFaultIn, SheetReadIn};

use crate::line::Line;
use crate::size::{WrongSize, sized};
use crate::view::Lines;
use sheets::holder::Size;
use std::alloc::{AllocError, AllocFailed, Global};
use std::fmt;
use std::str::FromStr;

// Why a sheet cannot be taken in.
#[derive(Clone, Copy, PartialEq, Eq, Debug)]
pub enum SheetFault {
    // A word is no cell, in the line of this number.
    NoCell(usize),
    // The row in the line of this number has not as many cells as the first.
    UnlikeRow(usize),
    // The filters refuse its size.
    WrongSize(WrongSize),
    // There is no memory for it.
    Memory,
}

impl fmt::Display for SheetFault {
    ghost output = { λ f. Some (sheet_text f None) };

    fn fmt<W: fmt::Write>(&self, f: &mut fmt::Formatter<W>) -> fmt::Result {
        match self {
            SheetFault::NoCell(line) => write!(f, "line {line}: a word is no cell"),
            SheetFault::UnlikeRow(line) => write!(
                f,
                "line {line}: this row has not as many cells as the first"
            ),
            SheetFault::WrongSize(size) => write!(f, "{size}"),
            SheetFault::Memory => write!(f, "there is not enough memory"),
        }
    }
}

impl From<WrongSize> for SheetFault {
    ghost use Rattle.texts.specs.declared.sheet.SheetFault.TheVariants.{WrongSize as WrongSheet};

    ghost from_gives = { λ s r. r ≡ WrongSheet s };

    fn from(refused: WrongSize) -> SheetFault {
        SheetFault::WrongSize(refused)
    }
}

// `?` converts but once, so that each fault takes in want of memory by itself.
impl From<AllocError> for SheetFault {
    ghost use Rattle.texts.specs.declared.sheet.SheetFault.TheVariants.{Memory};

    ghost from_gives = { λ _ r. r ≡ Memory };

    fn from(_e: AllocError) -> SheetFault {
        SheetFault::Memory
    }
}

impl<T: Drop> From<AllocFailed<T>> for SheetFault {
    ghost use Rattle.texts.specs.declared.sheet.SheetFault.TheVariants.{Memory};

    ghost from_gives = { λ _ r. r ≡ Memory };

    fn from(_e: AllocFailed<T>) -> SheetFault {
        SheetFault::Memory
    }
}

// Takes in a sheet: its size, within what the filters take, and its numbers row by row.
pub fn read_sheet<T: FromStr + Drop>(
    alloc: Global,
    lines: &[Line],
) -> Result<(Size, Vec<T>), SheetFault>
where
    T::Err: Drop,
    ensures width { IfOk result (λ p. (1 ≤ p.0.width) × (p.0.width ≤ 2048)) }
    ensures height { IfOk result (λ p. (1 ≤ p.0.height) × (p.0.height ≤ 2048)) }
    ensures read { SheetRead T.FromStr.from_str_gives lines.now result }
{
    let mut cells = Vec::new(alloc);
    let size = sized(read_listed(lines, &mut cells)?)?;
    Ok((size, cells))
}

// Takes in the rows of a sheet and answers its size. A blank line is no row.
fn read_listed<T: FromStr + Drop>(lines: &[Line], cells: &mut Vec<T>) -> Result<Size, SheetFault>
where
    T::Err: Drop,
    ensures rows { IfOk result (λ s. Grid T.FromStr.from_str_gives lines.now none cells.old.items s cells.new.items) }
    ensures fault { IfErr result (λ e. GridFault T.FromStr.from_str_gives lines.now none cells.old.items e) }
{
    let mut size = Size::NONE;
    for line in lines {
        let n = read_row(*line, cells)?;
        if !agrees(n, size) {
            return Err(SheetFault::UnlikeRow(line.number));
        }
        size = grown(n, size);
    }
    Ok(size)
}

// Takes in a sheet from the lines that a view shows, likewise.
pub fn read_sheet_in<T: FromStr + Drop>(
    alloc: Global,
    lines: Lines,
) -> Result<(Size, Vec<T>), SheetFault>
where
    T::Err: Drop,
    ensures width { IfOk result (λ p. (1 ≤ p.0.width) × (p.0.width ≤ 2048)) }
    ensures height { IfOk result (λ p. (1 ≤ p.0.height) × (p.0.height ≤ 2048)) }
    ensures read { SheetReadIn T.FromStr.from_str_gives (shown lines.entry) result }
{
    let mut cells = Vec::new(alloc);
    let size = sized(read_rows(lines, &mut cells)?)?;
    Ok((size, cells))
}

// Takes in the rows of a sheet, behind the cells that are there, and answers its size, which is 0 by 0 where there is no row.
// A blank line is no row. What is there stays, also where a row is refused.
pub fn read_rows<T: FromStr + Drop>(lines: Lines, cells: &mut Vec<T>) -> Result<Size, SheetFault>
where
    T::Err: Drop,
    ensures rows { IfOk result (λ s. GridIn T.FromStr.from_str_gives (shown lines.entry) none cells.old.items s cells.new.items) }
    ensures fault { IfErr result (λ e. GridFaultIn T.FromStr.from_str_gives (shown lines.entry) none cells.old.items e) }
    ensures kept { take (length cells.old.items) cells.new.items ≡ cells.old.items }
{
    let mut size = Size::NONE;
    // By number: lines are a view of their texts, and no list of them is kept.
    for i in 0..lines.len() {
        let line = lines.at(i);
        let width = read_row(line, cells)?;
        if !agrees(width, size) {
            return Err(SheetFault::UnlikeRow(line.number));
        }
        size = grown(width, size);
    }
    Ok(size)
}

// Whether a row of so many cells may stand below a sheet of the size.
fn agrees(n: usize, size: Size) -> bool
    ensures { result ≡ agrees n size }
{
    n == 0 || size.height == 0 || n == size.width
}

// The size with a row of so many cells more, if it is one.
fn grown(n: usize, size: Size) -> Size
    requires { size.height < 2 ^ 63 }
    ensures { result ≡ grown n size }
{
    if n == 0 {
        size
    } else {
        Size {
            width: n,
            height: size.height + 1,
        }
    }
}

// Takes in a row, and answers how many cells it has.
fn read_row<T: FromStr + Drop>(line: Line, cells: &mut Vec<T>) -> Result<usize, SheetFault>
where
    T::Err: Drop,
    ensures row { IfOk result (λ n. IsRow T.FromStr.from_str_gives line.entry.text.now n cells.old.items cells.new.items) }
    ensures fault { IfErr result (RowFault T.FromStr.from_str_gives line.entry) }
    ensures kept { take (length cells.old.items) cells.new.items ≡ cells.old.items }
{
    let before = cells.len();
    for word in line.text.split_whitespace() {
        match word.parse::<T>() {
            Ok(cell) => cells.push(cell)?,
            Err(_) => return Err(SheetFault::NoCell(line.number)),
        }
    }
    Ok(cells.len().saturating_sub(before))
}
