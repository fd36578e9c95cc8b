// The laws of runs of points, each the promise of a call.
ghost use Rattle.jobs.specs.Laws.{Masks, Runs};

// A run of points that is not refused has a mask, with just these points.
pub fn runs_have_masks()
    ensures { Masks }
{}

// An unbroken run of points is one mask.
pub fn runs_are_acts()
    ensures { Runs }
{}
