// What is told of a job, as values.
ghost use Rattle.std.specs.Prelude.{◌≡◌, length, filter};
ghost use Rattle.sheetlaws.specs.Names.{first_of, went_ahead};

use crate::album::Album;
use crate::job::{Job, Pass};
use crate::outcome::{Outcome, thresholded};
use cells::flags::Flags;
use cells::gray::Gray;
use morphology::call::Answer;
use morphology::standing::{Sort, Standing};
use std::alloc::{AllocError, Global};

// The sheet that a call showed, by its name: one that no call before showed, or one again.
#[derive(Clone, Copy)]
pub enum Shown {
    New(Standing),
    Again(Standing),
}

// A call of the job: what it answered, and the sheet that was shown then.
#[derive(Clone, Copy)]
pub struct Step {
    pub pass: Pass,
    pub answer: Answer,
    pub sheet: Shown,
}

// What the job's calls did, which sheets they showed, and which there can be.
#[derive(Drop)]
pub struct Report {
    // The whole list of calls, made at once.
    pub outcome: Outcome,
    // The threshold of the sheet that stands.
    pub flags: Vec<Flags>,
    pub steps: Vec<Step>,
    // The loaded sheet, and those that the calls showed.
    pub shown: Album,
    // The sheet that stands.
    pub standing: Standing,
    // All sheets that there can be, for each sort that may have come first.
    pub families: Vec<Family>,
}

// The sheets that there can be where a filter of this sort comes first.
#[derive(Drop)]
pub struct Family {
    pub first: Sort,
    pub sheets: Album,
}

impl Report {
    // Makes the job's calls, and tells of each.
    //
    // The sheet of a step is the one that the front of the list up to it leaves, made as the whole list is. A sheet whose
    // name was shown before is that sheet, since each name leads to the next on every sheet and under every mask
    // (`Standing::then`): the front is made only where the name is new, which is three times at most.
    pub fn of(heap: Global, job: &Job) -> Result<Report, AllocError> {
        let outcome = Outcome::of(heap, job, job.passes.as_slice())?;
        let flags = thresholded(heap, outcome.gray.cells.as_slice(), job.threshold)?;
        let mut shown = album_of(heap, job)?;
        let mut steps = Vec::new(heap);
        let mut front = Vec::new(heap);
        let mut name = Standing::Loaded;
        let answers = outcome.gray.answers.as_slice();
        for (pass, answer) in job.passes.iter().zip(answers.iter().skip(1)) {
            front.push(*pass)?;
            if let Answer::Picks(_) = answer {
                name = name.then::<Gray>(pass.sort);
            }
            let sheet = if shown.named(name).is_some() {
                Shown::Again(name)
            } else {
                let made = Outcome::of(heap, job, front.as_slice())?;
                shown.add(name, made.into_grays())?;
                Shown::New(name)
            };
            steps.push(Step {
                pass: *pass,
                answer: *answer,
                sheet,
            })?;
        }
        Ok(Report {
            outcome,
            flags,
            steps,
            shown,
            standing: name,
            families: families(heap, job, name)?,
        })
    }

    // How many calls were not refused.
    pub fn accepted(&self) -> usize
        ensures { result ≡ length (filter (λ s. went_ahead s.answer) self.now.steps.items) }
    {
        self.steps
            .iter()
            .filter(|step| matches!(&step.answer, Answer::Picks(_)))
            .count()
    }
}

// An album with the loaded sheet.
fn album_of(heap: Global, job: &Job) -> Result<Album, AllocError> {
    let mut album = Album::new(heap);
    album.add(Standing::Loaded, job.cells.clone()?)?;
    Ok(album)
}

// The sheets that there can be where this one stands. Where no filter was accepted, either sort may come first.
fn families(heap: Global, job: &Job, standing: Standing) -> Result<Vec<Family>, AllocError> {
    let mut families = Vec::new(heap);
    match first_of(standing) {
        Some(first) => families.push(Family::of(heap, job, first)?)?,
        None => {
            families.push(Family::of(heap, job, Sort::Opening)?)?;
            families.push(Family::of(heap, job, Sort::Closing)?)?;
        }
    }
    Ok(families)
}

// The sort of the filter that came first, if any did.
fn first_of(standing: Standing) -> Option<Sort>
    ensures { result ≡ first_of standing }
{
    match standing {
        Standing::Loaded => None,
        Standing::Once(first) | Standing::Twice(first) | Standing::Thrice(first) => Some(first),
    }
}

impl Family {
    // Filters the loaded sheet by the sort, by the other, and by the sort again.
    fn of(heap: Global, job: &Job, first: Sort) -> Result<Family, AllocError> {
        let mut sheets = album_of(heap, job)?;
        let mut front = Vec::new(heap);
        let mut name = Standing::Loaded;
        for sort in [first, first.other(), first] {
            front.push(Pass { sort, cells: None })?;
            name = name.then::<Gray>(sort);
            let made = Outcome::of(heap, job, front.as_slice())?;
            sheets.add(name, made.into_grays())?;
        }
        Ok(Family { first, sheets })
    }
}
