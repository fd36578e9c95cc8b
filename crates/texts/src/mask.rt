// The masks of a job.
ghost use Rattle.std.specs.Prelude.{IfOk, IfErr};
ghost use Rattle.texts.specs.Lines.{shown};
ghost use Rattle.texts.specs.Masks.{Draws, Undrawn};
ghost use Rattle.texts.specs.Views.{DrawsIn, UndrawnIn};

use crate::fault::JobFault;
use crate::line::{Line, drawn_lines, drawn_lines_in};
use crate::view::Lines;
use drawings::drawing::Drawing;
use drawings::drawn::mask_of;
use masks::mask::Mask;
use std::alloc::Global;

// The mask that is drawn in the lines.
pub fn read_mask(alloc: Global, lines: &[Line]) -> Result<Mask, JobFault>
    ensures mask { IfOk result (Draws lines.now) }
    ensures fault { IfErr result (Undrawn lines.now) }
{
    let drawn = drawn_lines(alloc, lines)?;
    let read = Drawing::read(alloc, drawn.as_slice())?;
    Ok(mask_of(&read)?)
}

// The same in the lines that a view shows.
pub fn read_mask_in(alloc: Global, lines: Lines) -> Result<Mask, JobFault>
    ensures mask { IfOk result (DrawsIn (shown lines.entry)) }
    ensures fault { IfErr result (UndrawnIn (shown lines.entry)) }
{
    let drawn = drawn_lines_in(alloc, lines)?;
    let drawing = Drawing::read(alloc, drawn.as_slice())?;
    Ok(mask_of(&drawing)?)
}
