// A worked example of the layout.
ghost use Rattle.strips.specs.Examples.{Worked};

// The nine words are the strip of their job.
pub fn worked()
    ensures { Worked }
{}
