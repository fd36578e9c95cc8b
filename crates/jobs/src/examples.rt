// A worked example of a listing.
ghost use Rattle.jobs.specs.Examples.{Worked};

// The worked job has these four lines.
pub fn worked()
    ensures { Worked }
{}
