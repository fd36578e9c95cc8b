// Lists of calls on one worksheet.
ghost use Rattle.std.specs.Prelude.{◌≡◌, length};
ghost use Rattle.morphology.specs.Laws.{Adjunction};
ghost use Rattle.morphology.specs.FourSheets.{FourSheets};
ghost use Rattle.worksheets.specs.Runs.{within, made, Called, Ran, Stands};

use crate::worksheet::Worksheet;
use cells::kind::Kind;
use morphology::call::{Answer, Call};
use sheets::holder::Holder;

impl<H: Holder> Worksheet<H>
where
    H::Cell: Kind,
{
    // Makes the calls one after the other and writes their answers over the front of `told`. A filter takes the front of the
    // lent table, of the length that it names, or all of a shorter one. A call is made only where its answer has a place; the
    // number of calls made is answered, so that the rest can be made later.
    pub fn run(&mut self, calls: &[Call], told: &mut [Answer], table: &mut [H::Cell]) -> usize
        ensures count { result ≡ length (made (length table.old) (length told.old) calls.now) }
        ensures ran { Ran H.Cell.Kind.lattice H.Cell.Kind.means H.Holder.sheet (made (length table.old) (length told.old) calls.now) self.old self.new table.old table.new told.old told.new }
        ensures stands { Stands H.Cell.Kind.lattice H.Cell.Kind.means H.Holder.sheet (made (length table.old) (length told.old) calls.now) self.old self.new }
        ensures adjunction { Adjunction H.Cell.Kind.lattice }
        ensures four_sheets { FourSheets H.Cell.Kind.lattice }
    {
        let count = calls.len().min(told.len());
        // The answers are written by index, since nothing is known of a list behind a zip with its iter_mut.
        for (i, call) in calls[0..count].iter().enumerate() {
            told[i] = self.call(call, table);
        }
        count
    }

    // Makes one call. A filter takes the front of the lent table, of the length that it names, or all of a shorter one.
    pub fn call(&mut self, call: &Call, table: &mut [H::Cell]) -> Answer
        ensures { Called H.Cell.Kind.lattice H.Cell.Kind.means H.Holder.sheet (within (length table.old) call.now) self.old self.new table.old table.new result }
    {
        match call {
            Call::Lay(mask) => {
                self.lay(*mask);
                Answer::Laid
            }
            Call::Apply(filter, cells) => {
                let room = (*cells).min(table.len());
                Answer::from(self.apply(*filter, &mut table[0..room]))
            }
        }
    }
}
