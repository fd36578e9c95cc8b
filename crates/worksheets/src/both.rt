// One list of calls on two worksheets, with the three laws.
ghost use Rattle.std.specs.Prelude.{◌≡◌, length};
ghost use Rattle.morphology.specs.Laws.{Adjunction};
ghost use Rattle.morphology.specs.FourSheets.{FourSheets};
ghost use Rattle.morphology.specs.Matching.{Matching};
ghost use Rattle.worksheets.specs.Pairs.{made_alike, RanBoth};

use crate::worksheet::Worksheet;
use cells::kind::Kind;
use morphology::call::{Answer, Call};
use sheets::holder::Holder;

// Makes one list of calls on two worksheets, of any two kinds of cell and in any two holders, and writes the answers over
// the fronts of the two lists. A filter takes the fronts of the lent tables, of the length that it names, or of the shorter
// table's where that is less. A call is made only where its answers have a place in both lists; the number of calls made is
// answered. For new worksheets, as for any others, the three laws hold: the adjunction, the four sheets, and the matching.
// Worksheet, answers and table are lent one by one, since a struct that lends the three would owe a clause for each of them,
// that it still lends the same one.
pub fn run_both<A: Kind, B: Kind, G: Holder<Cell = A>, H: Holder<Cell = B>>(
    first: &mut Worksheet<G>,
    second: &mut Worksheet<H>,
    calls: &[Call],
    first_told: &mut [Answer],
    second_told: &mut [Answer],
    first_table: &mut [A],
    second_table: &mut [B],
) -> usize
    ensures count { result ≡ length (made_alike first_table.old second_table.old first_told.old second_told.old calls.now) }
    ensures ran { RanBoth A.Kind.lattice B.Kind.lattice A.Kind.means B.Kind.means G.Holder.sheet H.Holder.sheet (made_alike first_table.old second_table.old first_told.old second_told.old calls.now) first.old first.new second.old second.new first_table.old first_table.new second_table.old second_table.new first_told.old first_told.new second_told.old second_told.new }
    ensures adjunction { (Adjunction A.Kind.lattice) × (Adjunction B.Kind.lattice) }
    ensures four_sheets { (FourSheets A.Kind.lattice) × (FourSheets B.Kind.lattice) }
    ensures matching { Matching A.Kind.lattice B.Kind.lattice }
{
    let room = first_table.len().min(second_table.len());
    let count = calls.len().min(first_told.len()).min(second_told.len());
    let _ = first.run(&calls[0..count], first_told, &mut first_table[0..room]);
    let _ = second.run(&calls[0..count], second_told, &mut second_table[0..room]);
    count
}
