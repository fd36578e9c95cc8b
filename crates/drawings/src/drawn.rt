// The mask that a drawing draws, or what is wrong with it.
ghost use Rattle.std.specs.Prelude.{◌≡◌, Some};
ghost use Rattle.drawings.specs.Drawn.{blamed, why_text, Masks};
ghost use Rattle.drawings.specs.Told.{drawn_text};
ghost use Rattle.drawings.specs.declared.drawn.DrawnFault.TheVariants.{Unread};

use crate::drawing::{Drawing, DrawingFault, Place};
use masks::fault::MaskFault;
use masks::mask::Mask;
use std::fmt;

// Why a drawing draws no mask.
#[derive(Clone, Copy, PartialEq, Eq, Debug)]
pub enum DrawnFault {
    // The drawing cannot be read.
    Unread(DrawingFault),
    // No mask can be made of the points; told with the place of the point that is to blame, if one is.
    Refused(MaskFault, Option<Place>),
}

impl From<DrawingFault> for DrawnFault {
    ghost from_gives = { λ f r. r ≡ Unread f };

    fn from(fault: DrawingFault) -> DrawnFault {
        DrawnFault::Unread(fault)
    }
}

// The mask of the drawing's points.
pub fn mask_of(drawing: &Drawing) -> Result<Mask, DrawnFault>
    ensures { Masks drawing.now result }
{
    Mask::from_points(drawing.points()).map_err(|fault| blame(drawing, fault))
}

// The fault of a mask, with the place in the drawing of the point that is to blame.
fn blame(drawing: &Drawing, fault: MaskFault) -> DrawnFault
    ensures { result ≡ blamed drawing.now fault }
{
    match fault {
        MaskFault::NoPoints => DrawnFault::Refused(fault, None),
        MaskFault::Beyond(i) => DrawnFault::Refused(fault, drawing.place(i)),
    }
}

// Why no mask can be made of the points of a drawing.
#[derive(Clone, Copy)]
pub struct Why(pub MaskFault);

impl fmt::Display for Why {
    ghost output = { λ w. Some (why_text w.0) };

    fn fmt<W: fmt::Write>(&self, f: &mut fmt::Formatter<W>) -> fmt::Result {
        f.write_str(match self.0 {
            MaskFault::NoPoints => "the drawing has no point",
            MaskFault::Beyond(_) => "the point lies more than 15 from the origin",
        })
    }
}

impl fmt::Display for DrawnFault {
    ghost output = { λ f. Some (drawn_text f) };

    fn fmt<W: fmt::Write>(&self, f: &mut fmt::Formatter<W>) -> fmt::Result {
        match self {
            DrawnFault::Unread(fault) => write!(f, "{fault}"),
            DrawnFault::Refused(fault, None) => {
                write!(f, "refused {}: {}", fault.number(), Why(*fault))
            }
            DrawnFault::Refused(fault, Some(place)) => {
                write!(f, "refused {}: {place}: {}", fault.number(), Why(*fault))
            }
        }
    }
}
