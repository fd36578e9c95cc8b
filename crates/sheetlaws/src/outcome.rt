// A list of calls, made at once on two new worksheets: one of the job's sheet, and one of its threshold.
ghost use Rattle.std.specs.Prelude.{◌≡◌, map, length, IfOk};
ghost use Rattle.cells.specs.Threshold.{flags_from};
ghost use Rattle.worksheets.specs.Runs.{within};
ghost use Rattle.sheetlaws.specs.Jobs.{room, pass_call, job_calls, gray_answers};

use crate::job::{Job, Pass};
use cells::flags::Flags;
use cells::gray::Gray;
use cells::kind::Kind;
use cells::threshold::Threshold;
use morphology::call::{Answer, Call};
use sheets::rows::Rows;
use std::alloc::{AllocError, Global};
use worksheets::both::run_both;
use worksheets::worksheet::Worksheet;

// What a worksheet is made over and works with: its cells, a table, and a place for each answer.
#[derive(Drop)]
pub struct Backing<C> {
    pub cells: Vec<C>,
    pub answers: Vec<Answer>,
    table: Vec<C>,
}

impl<C: Kind> Backing<C> {
    // The backing for so many calls, with a table of so many cells.
    fn of(heap: Global, cells: Vec<C>, calls: usize, room: usize) -> Result<Backing<C>, AllocError>
        ensures cells { IfOk result (λ b. b.cells ≡ cells) }
        ensures places { IfOk result (λ b. length b.answers.items ≡ calls) }
        ensures table { IfOk result (λ b. length b.table.items ≡ room) }
    {
        Ok(Backing {
            cells,
            answers: vec![in heap; Answer::Laid; calls]?,
            table: vec![in heap; C::least(); room]?,
        })
    }
}

// What the calls left and answered, on the sheet and on its threshold. The first answer is that to the lay.
#[derive(Drop)]
pub struct Outcome {
    pub gray: Backing<Gray>,
    pub flag: Backing<Flags>,
}

impl Outcome {
    // Lays the job's mask and makes the passes.
    pub fn of(heap: Global, job: &Job, passes: &[Pass]) -> Result<Outcome, AllocError>
        ensures { IfOk result (λ o. o.gray.answers.items ≡ gray_answers job.now.size.width job.now.cells.items (map (within (room job.now)) (job_calls job.now.mask (room job.now) passes.now))) }
    {
        let room = job.table_cells();
        let calls = calls(heap, job, passes)?;
        let flags = thresholded(heap, job.cells.as_slice(), job.threshold)?;
        let mut gray = Backing::of(heap, job.cells.clone()?, calls.len(), room)?;
        let mut flag = Backing::of(heap, flags, calls.len(), room)?;
        make(job.size.width, calls.as_slice(), &mut gray, &mut flag);
        Ok(Outcome { gray, flag })
    }

    // The cells that the calls left in the sheet.
    pub fn into_grays(self) -> Vec<Gray>
        ensures { result ≡ self.gray.cells }
    {
        let Outcome { gray, flag: _ } = self;
        let Backing {
            cells,
            answers: _,
            table: _,
        } = gray;
        cells
    }
}

// Makes the calls on two new worksheets, with rows of one width.
fn make(width: usize, calls: &[Call], gray: &mut Backing<Gray>, flag: &mut Backing<Flags>)
    requires places { length gray.old.answers.items ≡ length calls.now }
    requires flag_places { length flag.old.answers.items ≡ length calls.now }
    requires tables { length flag.old.table.items ≡ length gray.old.table.items }
    ensures { gray.new.answers.items ≡ gray_answers width gray.old.cells.items (map (within (length gray.old.table.items)) calls.now) }
{
    let _ = run_both(
        &mut Worksheet::new(Rows::new(width, gray.cells.as_mut_slice())),
        &mut Worksheet::new(Rows::new(width, flag.cells.as_mut_slice())),
        calls,
        gray.answers.as_mut_slice(),
        flag.answers.as_mut_slice(),
        gray.table.as_mut_slice(),
        flag.table.as_mut_slice(),
    );
}

// The lay of the job's mask, and the passes as calls.
fn calls(heap: Global, job: &Job, passes: &[Pass]) -> Result<Vec<Call>, AllocError>
    ensures { IfOk result (λ v. v.items ≡ job_calls job.now.mask (room job.now) passes.now) }
{
    let mut calls = filters(heap, job.table_cells(), passes)?;
    calls.insert(0, Call::Lay(job.mask))?;
    Ok(calls)
}

// The passes as calls, where a table needs so many cells.
fn filters(heap: Global, room: usize, passes: &[Pass]) -> Result<Vec<Call>, AllocError>
    ensures { IfOk result (λ v. v.items ≡ map (pass_call room) passes.now) }
{
    passes.iter().map(|p| p.call(room)).collect(heap)
}

// The flags that the threshold makes of each gray.
pub fn thresholded(
    heap: Global,
    grays: &[Gray],
    threshold: Threshold,
) -> Result<Vec<Flags>, AllocError>
    ensures { IfOk result (λ v. v.items ≡ map (flags_from threshold.level) grays.now) }
{
    grays.iter().map(|g| threshold.apply(*g)).collect(heap)
}
