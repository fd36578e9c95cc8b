// The law of strips, as the promise of a call.
ghost use Rattle.strips.specs.Laws.{OneJob};

// A strip tells one job.
pub fn one_job()
    ensures { OneJob }
{}
