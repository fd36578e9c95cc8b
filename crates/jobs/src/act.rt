// The steps of a job, with each run of points as one mask.
ghost use Rattle.std.specs.Prelude.{◌≡◌, ℕ, ◌+◌, ◌^◌, ◌<◌, List, [], ◌∷◌, ◌++◌, length, IfOk};
ghost use Rattle.strips.specs.Views.{job_of};
ghost use Rattle.jobs.specs.Acts.{blamed, act_of, job_acts, AlikeAct, Alike, EndsRun};
ghost use Rattle.jobs.specs.declared.act.Act.TheVariants.{Run, Filter as Called};

use crate::fault::PointsFault;
use masks::fault::MaskFault;
use masks::mask::Mask;
use masks::point::Point;
use morphology::call::Filter;
use std::alloc::{AllocError, Global};
use strips::job::JobStrip;
use strips::parts::Step;

// What is done at a call, or where a run of points ends.
#[derive(Clone, Copy)]
pub enum Act {
    // The mask of the run is laid; where none can be made, the one that lies stays.
    Run(Result<Mask, PointsFault>),
    // The filter is called.
    Filter(Filter),
}

// The acts of the job's steps.
pub(crate) fn acts_of(heap: Global, job: &JobStrip<'_>) -> Result<Vec<Act>, AllocError>
    ensures { IfOk result (λ v. Alike v.items (job_acts (job_of job.now))) }
{
    let mut acts = Acts::new(heap, job.first_step());
    for step in job.each_step() {
        match step {
            Step::Point(fields) => acts.point(Point::from(fields))?,
            Step::Call(filter) => acts.call(filter)?,
        }
    }
    acts.end()
}

// The acts of some steps, and behind them the run of points that is open: it begins, or would begin, at word `first`.
#[derive(Drop)]
struct Acts {
    done: Vec<Act>,
    first: usize,
    run: Vec<Point>,
    ghost short: { first + length run.items < 2 ^ 63 },
}

impl Acts {
    // No acts, before the step that is that word.
    fn new(heap: Global, first: usize) -> Acts
        requires { first < 2 ^ 63 }
        ensures done { result.done.items ≡ [] }
        ensures run { result.run.items ≡ [] }
        ensures first { result.first ≡ first }
    {
        Acts {
            done: Vec::new(heap),
            first,
            run: Vec::new(heap),
        }
    }

    // A point lengthens the run.
    fn point(&mut self, point: Point) -> Result<(), AllocError>
        requires { self.now.first + length self.now.run.items + 1 < 2 ^ 63 }
        ensures run { IfOk result (λ _. self.new.run.items ≡ self.old.run.items ++ point ∷ []) }
        ensures done { self.new.done.items ≡ self.old.done.items }
        ensures first { self.new.first ≡ self.old.first }
    {
        self.run.push(point)?;
        Ok(())
    }

    // A call ends it; the next run begins at the word after it.
    fn call(&mut self, filter: Filter) -> Result<(), AllocError>
        requires { self.now.first + length self.now.run.items + 1 < 2 ^ 63 }
        ensures done { IfOk result (λ _. (xs : List Act) × EndsRun self.old.first self.old.run.items self.old.done.items xs × self.new.done.items ≡ xs ++ Called filter ∷ []) }
        ensures first { IfOk result (λ _. self.new.first ≡ self.old.first + length self.old.run.items + 1) }
        ensures run { IfOk result (λ _. self.new.run.items ≡ []) }
    {
        self.close()?;
        self.done.push(Act::Filter(filter))?;
        self.first += self.run.len() + 1;
        self.run.clear();
        Ok(())
    }

    // The acts, once the run is at its end.
    fn end(mut self) -> Result<Vec<Act>, AllocError>
        ensures { IfOk result (λ v. EndsRun self.first self.run.items self.done.items v.items) }
    {
        self.close()?;
        Ok(self.done)
    }

    // Puts what comes of the run behind the acts, if the run has points.
    fn close(&mut self) -> Result<(), AllocError>
        ensures done { IfOk result (λ _. EndsRun self.old.first self.old.run.items self.old.done.items self.new.done.items) }
        ensures first { self.new.first ≡ self.old.first }
        ensures run { self.new.run.items ≡ self.old.run.items }
    {
        if !self.run.is_empty() {
            let mask = self.mask();
            self.done.push(Act::Run(mask))?;
        }
        Ok(())
    }

    // The mask of the run.
    fn mask(&self) -> Result<Mask, PointsFault>
        ensures { AlikeAct (Run result) (act_of self.now.first self.now.run.items) }
    {
        let first = self.first;
        Mask::from_points(self.run.as_slice()).map_err(|fault| blamed(first, fault))
    }
}

// The refusal of a mask, with the word of the point that is to blame.
fn blamed(first: usize, fault: MaskFault) -> PointsFault
    requires { (i : ℕ) → fault ≡ MaskFault.Beyond i → first + i < 2 ^ 63 }
    ensures { result ≡ blamed first fault }
{
    let word = match fault {
        MaskFault::NoPoints => first,
        MaskFault::Beyond(i) => first + i,
    };
    PointsFault { fault, word }
}
