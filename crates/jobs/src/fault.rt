// Why a job, or a step of it, is refused.
ghost use Rattle.std.specs.Prelude.{◌≡◌, Some};
ghost use Rattle.jobs.specs.declared.fault.JobFault.TheVariants.{Strip, Mask, Worksheet};
ghost use Rattle.jobs.specs.Faults.{number, word, layer, layer_name};

use masks::fault::MaskFault;
use morphology::refusal::Refusal;
use std::fmt;
use strips::fault::StripFault;

// The layer that refuses.
#[derive(Clone, Copy, PartialEq, Eq, Debug)]
pub enum Layer {
    Strip,
    Mask,
    Worksheet,
}

impl fmt::Display for Layer {
    ghost output = { λ l. Some (layer_name l) };

    fn fmt<W: fmt::Write>(&self, f: &mut fmt::Formatter<W>) -> fmt::Result {
        f.write_str(match self {
            Layer::Strip => "strip",
            Layer::Mask => "mask",
            Layer::Worksheet => "worksheet",
        })
    }
}

// A refusal to make a mask of a run of points, with the word of the point that is to blame.
#[derive(Clone, Copy, PartialEq, Eq, Debug)]
pub struct PointsFault {
    pub fault: MaskFault,
    pub word: usize,
}

// A refusal, with that of the layer whole.
#[derive(Clone, Copy, PartialEq, Eq, Debug)]
pub enum JobFault {
    // The bytes are the strip of no job.
    Strip(StripFault),
    // No mask can be made of a run of points.
    Mask(PointsFault),
    // A filter does not go ahead.
    Worksheet(Refusal),
}

impl JobFault {
    // The number under which the refusal is told.
    pub fn number(self) -> u8
        ensures { result ≡ number self }
    {
        match self {
            JobFault::Strip(fault) => fault.number(),
            JobFault::Mask(run) => run.fault.number(),
            JobFault::Worksheet(refusal) => refusal.number(),
        }
    }

    // The word of the strip that it is told with, if there is one.
    pub fn word(self) -> Option<usize>
        ensures { result ≡ word self }
    {
        match self {
            JobFault::Strip(fault) => Some(fault.word()),
            JobFault::Mask(run) => Some(run.word),
            JobFault::Worksheet(_) => None,
        }
    }

    // The layer that refuses.
    pub fn layer(self) -> Layer
        ensures { result ≡ layer self }
    {
        match self {
            JobFault::Strip(_) => Layer::Strip,
            JobFault::Mask(_) => Layer::Mask,
            JobFault::Worksheet(_) => Layer::Worksheet,
        }
    }
}

impl From<StripFault> for JobFault {
    ghost from_gives = { λ f r. r ≡ Strip f };

    fn from(fault: StripFault) -> JobFault {
        JobFault::Strip(fault)
    }
}

impl From<PointsFault> for JobFault {
    ghost from_gives = { λ f r. r ≡ Mask f };

    fn from(fault: PointsFault) -> JobFault {
        JobFault::Mask(fault)
    }
}

impl From<Refusal> for JobFault {
    ghost from_gives = { λ f r. r ≡ Worksheet f };

    fn from(refusal: Refusal) -> JobFault {
        JobFault::Worksheet(refusal)
    }
}
