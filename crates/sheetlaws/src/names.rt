// The words for sheets in a listing.
ghost use Rattle.std.specs.Prelude.{Some};
ghost use Rattle.sheetlaws.specs.Names.{sheet_name, reason};

use morphology::standing::{Sort, Standing};
use std::fmt;

// The name of a sheet: what was done to the loaded one, in the order of time.
#[derive(Clone, Copy)]
pub struct SheetName(pub Standing);

// Which filters were accepted where a sheet of this name stands.
#[derive(Clone, Copy)]
pub struct Reason(pub Standing);

impl fmt::Display for SheetName {
    ghost output = { λ n. Some (sheet_name n.0) };

    fn fmt<W: fmt::Write>(&self, f: &mut fmt::Formatter<W>) -> fmt::Result {
        f.write_str(match self.0 {
            Standing::Loaded => "loaded",
            Standing::Once(Sort::Opening) => "opened",
            Standing::Once(Sort::Closing) => "closed",
            Standing::Twice(Sort::Opening) => "opened-closed",
            Standing::Twice(Sort::Closing) => "closed-opened",
            Standing::Thrice(Sort::Opening) => "opened-closed-opened",
            Standing::Thrice(Sort::Closing) => "closed-opened-closed",
        })
    }
}

impl fmt::Display for Reason {
    ghost output = { λ r. Some (reason r.0) };

    fn fmt<W: fmt::Write>(&self, f: &mut fmt::Formatter<W>) -> fmt::Result {
        f.write_str(match self.0 {
            Standing::Loaded => "so the sheet is as it was loaded",
            Standing::Once(Sort::Opening) => "all of them open, so the sheet is opened once",
            Standing::Once(Sort::Closing) => "all of them close, so the sheet is closed once",
            Standing::Twice(Sort::Opening) =>
                "the first open, the last close, so the sheet is opened and then closed",
            Standing::Twice(Sort::Closing) =>
                "the first close, the last open, so the sheet is closed and then opened",
            Standing::Thrice(Sort::Opening) =>
                "the first and the last open, with close between them, so the sheet is opened, closed and opened again",
            Standing::Thrice(Sort::Closing) =>
                "the first and the last close, with open between them, so the sheet is closed, opened and closed again",
        })
    }
}
