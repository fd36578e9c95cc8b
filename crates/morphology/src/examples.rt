// Worked examples of the definitions.
ghost use Rattle.morphology.specs.Examples.{Examples};
ghost use Rattle.morphology.specs.Edge.{EdgeExample};

// The worked examples, all at once.
pub fn worked()
    ensures { Examples }
{}

// Two erosions in a row are not one erosion by the summed points: gray 7 9 shows it at its edge.
pub fn erosions_do_not_sum()
    ensures { EdgeExample }
{}
