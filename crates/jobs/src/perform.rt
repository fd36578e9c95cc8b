// The acts of a job on its topmost sheet, as lines.
ghost use Rattle.std.specs.Prelude.{◌≡◌, ◌++◌, map, length, IfOk};
ghost use Rattle.std.specs.List.{filter_map, range_with_len};
ghost use Rattle.masks.specs.Chords.{chords};
ghost use Rattle.masks.specs.Rows.{points};
ghost use Rattle.worksheets.specs.Performed.{state};
ghost use Rattle.jobs.specs.Listings.{line_of, left_by, left, lines, rows, Lists};

use crate::act::Act;
use crate::fault::JobFault;
use crate::line::{Line, Row};
use crate::word::Listed;
use cells::kind::Kind;
use masks::chord::ChordList;
use masks::mask::Mask;
use sheets::holder::Holder;
use std::alloc::{AllocError, Global};
use strips::kind::CellKind;
use worksheets::worksheet::Worksheet;

// How many cells the table has that each filter is called with.
const TABLE_CELLS: usize = 16_384;

// That table.
#[derive(Drop)]
struct Table<C> {
    cells: Vec<C>,
    ghost whole: { length cells.items ≡ 16384 },
}

impl<K: Kind> Table<K> {
    // A table of least cells.
    fn new(heap: Global) -> Result<Table<K>, AllocError> {
        let cells = vec![in heap; K::least(); TABLE_CELLS]?;
        Ok(Table { cells })
    }
}

// The listing of the acts on a new worksheet of the pile.
pub(crate) fn perform<H>(
    heap: Global,
    kind: CellKind,
    pile: H,
    acts: &[Act],
) -> Result<Vec<Line>, AllocError>
where
    H: Holder + Drop,
    H::Cell: Listed,
    ensures { IfOk result (λ v. Lists H.Cell.Kind.lattice H.Cell.Kind.means H.Cell.Listed.listed kind acts.now (H.Holder.sheet pile) v.items) }
{
    let mut lines = Vec::new(heap);
    let mut worksheet = Worksheet::new(pile);
    let size = worksheet.holder().size();
    lines.push(Line::Sheet { kind, size })?;
    let mut table = Table::new(heap)?;
    make_all(&mut worksheet, acts, &mut table, &mut lines)?;
    add_rows(heap, kind, worksheet.holder(), &mut lines)?;
    Ok(lines)
}

// Does the acts one after the other, and puts the line of each behind those that are there.
fn make_all<H>(
    worksheet: &mut Worksheet<H>,
    acts: &[Act],
    table: &mut Table<H::Cell>,
    so_far: &mut Vec<Line>,
) -> Result<(), AllocError>
where
    H: Holder,
    H::Cell: Listed,
    ensures lines { IfOk result (λ _. so_far.new.items ≡ so_far.old.items ++ lines H.Cell.Kind.lattice acts.now (state H.Cell.Kind.means H.Holder.sheet worksheet.old)) }
    ensures after { IfOk result (λ _. state H.Cell.Kind.means H.Holder.sheet worksheet.new ≡ left H.Cell.Kind.lattice acts.now (state H.Cell.Kind.means H.Holder.sheet worksheet.old)) }
{
    for act in acts {
        let line = make(worksheet, *act, table);
        so_far.push(line)?;
    }
    Ok(())
}

// Does one act, and answers its line.
fn make<H>(worksheet: &mut Worksheet<H>, act: Act, table: &mut Table<H::Cell>) -> Line
where
    H: Holder,
    H::Cell: Listed,
    ensures line { result ≡ line_of act (state H.Cell.Kind.means H.Holder.sheet worksheet.old) }
    ensures after { state H.Cell.Kind.means H.Holder.sheet worksheet.new ≡ left_by H.Cell.Kind.lattice act (state H.Cell.Kind.means H.Holder.sheet worksheet.old) }
{
    match act {
        Act::Run(Ok(mask)) => {
            worksheet.lay(mask);
            mask_line(&mask)
        }
        Act::Run(Err(fault)) => Line::Refused(JobFault::from(fault)),
        Act::Filter(filter) => {
            let answer = worksheet.apply(filter, table.cells.as_mut_slice());
            Line::Call(filter, answer)
        }
    }
}

// The line of a mask that is laid.
fn mask_line(mask: &Mask) -> Line
    ensures { result ≡ Line.Mask (length (points mask.now.rows 31)) (length (chords mask.now.rows 31)) }
{
    let chords = ChordList::of(mask);
    Line::Mask {
        points: mask.count(),
        chords: chords.as_slice().len(),
    }
}

// Puts the rows of the sheet behind the lines that are there, the northmost first.
fn add_rows<H>(
    heap: Global,
    kind: CellKind,
    holder: &H,
    so_far: &mut Vec<Line>,
) -> Result<(), AllocError>
where
    H: Holder,
    H::Cell: Listed,
    ensures { IfOk result (λ _. so_far.new.items ≡ so_far.old.items ++ rows kind H.Cell.Listed.listed (H.Holder.sheet holder.now)) }
{
    // By number, since what a holder shows is no list of rows.
    for y in 0..holder.size().height {
        let words = words_of(heap, holder, y)?;
        so_far.push(Line::Cells(kind, Row::new(words)))?;
    }
    Ok(())
}

// The words of row y, of the places that have a cell.
fn words_of<H>(heap: Global, holder: &H, y: usize) -> Result<Vec<u32>, AllocError>
where
    H: Holder,
    H::Cell: Listed,
    ensures { IfOk result (λ v. v.items ≡ map H.Cell.Listed.listed (filter_map (λ x. (H.Holder.sheet holder.now).cell x y) (range_with_len 0 (H.Holder.sheet holder.now).width))) }
{
    (0..holder.size().width)
        .filter_map(|x| holder.cell(x, y))
        .map(|cell| cell.word())
        .collect(heap)
}
