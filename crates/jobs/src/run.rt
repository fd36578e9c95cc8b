// The listing of a strip.
ghost use Rattle.std.specs.Prelude.{◌≡◌, [], ◌∷◌, map, IfOk, string_bytes};
ghost use Rattle.strips.specs.Reading.{reading};
ghost use Rattle.strips.specs.Views.{job_of};
ghost use Rattle.jobs.specs.Piles.{north_up, framed};
ghost use Rattle.jobs.specs.Listings.{cells_by, listed, listing, Lists, ListsJob};
ghost use Rattle.jobs.specs.Texts.{text};

use crate::act::{Act, acts_of};
use crate::fault::JobFault;
use crate::line::Line;
use crate::perform::perform;
use crate::text::text;
use crate::word::Listed;
use cells::echo::ReturnBits;
use cells::flags::Flags;
use cells::gray::Gray;
use cells::height::Height;
use cells::kind::Kind;
use cells::words::WordForm;
use sheets::holder::Holder;
use sheets::rows::Rows;
use sheets::south_up::SouthUp;
use sheets::window::Window;
use std::alloc::{AllocError, Global};
use strips::job::JobStrip;
use strips::kind::CellKind;
use strips::reader::read;

// Runs the job of the strip, and answers its listing; or the one line of a strip that is refused.
pub fn run(heap: Global, bytes: &[u8]) -> Result<Vec<Line>, AllocError>
    ensures { IfOk result (λ v. v.items ≡ listing (reading bytes.now)) }
{
    match read(bytes) {
        Ok(job) => list(heap, &job),
        Err(fault) => Ok(vec![in heap; Line::Refused(JobFault::from(fault))]?),
    }
}

// Runs the job of the strip, and answers its listing as text.
pub fn run_to_text(heap: Global, bytes: &[u8]) -> Result<String, AllocError>
    ensures { IfOk result (λ s. string_bytes s ≡ text (listing (reading bytes.now))) }
{
    let lines = run(heap, bytes)?;
    text(heap, lines.as_slice())
}

// The listing of a job.
fn list(heap: Global, job: &JobStrip<'_>) -> Result<Vec<Line>, AllocError>
    ensures { IfOk result (λ v. v.items ≡ listed (job_of job.now)) }
{
    let acts = acts_of(heap, job)?;
    let acts = acts.as_slice();
    let planned = Planned { heap, job, acts };
    match job.kind() {
        CellKind::Gray => planned.list_as::<Gray>(),
        CellKind::Height => planned.list_as::<Height>(),
        CellKind::Flags => planned.list_as::<Flags>(),
        CellKind::Return => planned.list_as::<ReturnBits>(),
    }
}

// A job with its acts, and the heap for its lines.
#[derive(Clone, Copy)]
struct Planned<'a> {
    heap: Global,
    job: &'a JobStrip<'a>,
    acts: &'a [Act],
}

impl Planned<'_> {
    // The listing of the acts on the topmost of the job, in a kind of cell.
    fn list_as<K: Listed + Drop>(&self) -> Result<Vec<Line>, AllocError>
        ensures { IfOk result (λ v. ListsJob K.Kind.lattice K.Kind.means K.WordForm.reads K.Listed.listed self.now.acts.now (job_of self.now.job.now) v.items) }
    {
        let mut cells = cells_of::<K>(self.heap, self.job)?;
        let rows = Rows::new(self.job.width() as usize, cells.as_mut_slice());
        self.list_turned(rows)
    }

    // The listing of the acts on the topmost over a pile: south-up where the job is of heights, and the window.
    fn list_turned<H>(&self, pile: H) -> Result<Vec<Line>, AllocError>
    where
        H: Holder + Drop,
        H::Cell: Listed + Drop,
        ensures { IfOk result (λ v. Lists H.Cell.Kind.lattice H.Cell.Kind.means H.Cell.Listed.listed (job_of self.now.job.now).kind self.now.acts.now (framed (job_of self.now.job.now).window (north_up (job_of self.now.job.now).kind (H.Holder.sheet pile))) v.items) }
    {
        match self.job.kind() {
            CellKind::Height => self.list_framed(SouthUp::new(pile)),
            CellKind::Gray | CellKind::Flags | CellKind::Return => self.list_framed(pile),
        }
    }

    // The listing of the acts on the window of a pile, or on the pile.
    fn list_framed<H>(&self, pile: H) -> Result<Vec<Line>, AllocError>
    where
        H: Holder + Drop,
        H::Cell: Listed + Drop,
        ensures { IfOk result (λ v. Lists H.Cell.Kind.lattice H.Cell.Kind.means H.Cell.Listed.listed (job_of self.now.job.now).kind self.now.acts.now (framed (job_of self.now.job.now).window (H.Holder.sheet pile)) v.items) }
    {
        let Planned { heap, job, acts } = *self;
        match job.window() {
            Some(asked) => perform(heap, job.kind(), Window::new(pile, asked), acts),
            None => perform(heap, job.kind(), pile, acts),
        }
    }
}

// The cells of the raw words, row by row.
fn cells_of<K: Listed>(heap: Global, job: &JobStrip<'_>) -> Result<Vec<K>, AllocError>
    ensures { IfOk result (λ v. map K.Kind.means v.items ≡ map (cells_by K.Kind.lattice K.Kind.means K.WordForm.reads) (job_of job.now).raws) }
{
    let mut cells = Vec::new(heap);
    for word in job.raws() {
        cells.push(cell_of(u32::from_be_bytes(*word)))?;
    }
    Ok(cells)
}

// The cell of a raw word; it is one in each job that was read.
fn cell_of<K: Listed>(word: u32) -> K
    ensures { K.Kind.means result ≡ cells_by K.Kind.lattice K.Kind.means K.WordForm.reads word }
{
    K::from_word(word).unwrap_or(K::least())
}
