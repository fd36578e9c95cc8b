// The reader of strips.
ghost use Rattle.std.specs.Prelude.{length, IfOk, IfErr, Ok};
ghost use Rattle.strips.specs.Words.{numbers};
ghost use Rattle.strips.specs.Reading.{reading, job_from};
ghost use Rattle.strips.specs.Jobs.{Job};
ghost use Rattle.strips.specs.Views.{job_of, Reads};
ghost use Rattle.strips.specs.Laws.{Told, TellsFirst, TellsGround};

use crate::fault::StripFault;
use crate::job::JobStrip;
use crate::strip::Strip;

// The most bytes that a strip has.
const MOST: usize = 65_536;

// Reads the strip of a job, or says why it is none. Copies none of the bytes.
pub fn read(bytes: &[u8]) -> Result<JobStrip<'_>, StripFault>
    // Its answer is the reading of the bytes.
    ensures exact { Reads (reading bytes.now) result }
    // An accepted strip is the strip of the job that it tells.
    ensures found { IfOk result (λ s. Told bytes.now (job_of s)) }
    // The strip of a job is accepted, and tells that job.
    ensures only { (j : Job) → Told bytes.now j → Reads (Ok j) result }
    // A refusal is told with the first word that begins the strip of no job.
    ensures first { IfErr result (λ f. TellsFirst bytes.now f) }
    // Its number is that of what stands there.
    ensures cause { IfErr result (λ f. TellsGround bytes.now f) }
{
    judged(bytes)
}

// Judges the length, and then the words.
#[tactic(auto, unfolding(crate::specs::Reading::reading))]
fn judged(bytes: &[u8]) -> Result<JobStrip<'_>, StripFault>
    ensures { Reads (reading bytes.now) result }
{
    if bytes.len() > MOST {
        return Err(StripFault::TooLong);
    }
    let (words, over) = bytes.as_chunks();
    read_words(words, over)
}

// Reads the words, whatever their number, with the bytes behind them that are no whole word.
#[tactic(auto, unfolding(crate::specs::Reading::job_from))]
fn read_words<'a>(words: &'a [[u8; 4]], over: &[u8]) -> Result<JobStrip<'a>, StripFault>
    ensures { Reads (job_from (length over.now) (numbers words.now)) result }
{
    let mut strip = Strip { words, place: 0 };
    let shape = strip.shape()?;
    let cells = strip.count(shape.width * shape.height)?;
    let raws = strip.raws(shape.kind, cells)?;
    let window = strip.window()?;
    let steps = strip.steps()?;
    strip.ended(over)?;
    Ok(JobStrip {
        shape,
        raws,
        window,
        steps,
    })
}
