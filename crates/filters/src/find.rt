// Find: the places where all that the fore mask sees stands above all that the back mask sees.
ghost use Rattle.std.specs.Prelude.{◌≡◌, ◌+◌, ◌-◌, ◌*◌, ◌<◌, ◌≤◌, List, length, slice_set, Decides};
ghost use Rattle.cells.specs.Lattice.{Above};
ghost use Rattle.masks.specs.Cost.{line_picks};
ghost use Rattle.masks.specs.declared.point.Point.{Point};
ghost use Rattle.sheets.specs.Sheet.{Whole, shown};
ghost use Rattle.morphology.specs.Refusals.{judged_find};
ghost use Rattle.morphology.specs.Find.{HitList};
ghost use Rattle.plans.specs.Plan.{Spells};
ghost use Rattle.plans.specs.Shown.{lengths_of, chords_of};
ghost use Rattle.filters.specs.Calls.{WhereRefused};
ghost use Rattle.filters.specs.Find.{note, listed, RowHits, Found};

use crate::filter::admit;
use crate::ring::Ring;
use crate::side::{Joins, Meets};
use cells::kind::{Kind, Ranked};
use masks::mask::Mask;
use morphology::place::Place;
use morphology::refusal::Refusal;
use plans::plan::Plan;
use sheets::holder::{Holder, Size};

// Finds every place on the sheet from which all points of both masks see a cell, and the least cell under the fore mask lies
// strictly above the greatest under the back mask: in the field's words, a hit-or-miss transform. The earliest of them in row
// order are written over the front of `places`. Answers how many there are, and the picks made, or says why not and alters
// nothing. The tables may be longer than is needed. What they hold afterwards is not promised.
pub fn find<H: Holder>(
    holder: &H,
    fore: &Mask,
    back: &Mask,
    fore_table: &mut [H::Cell],
    back_table: &mut [H::Cell],
    places: &mut [Place],
) -> Result<(usize, u64), Refusal>
where
    H::Cell: Ranked,
    ensures found { Found H.Cell.Kind.lattice fore.now back.now (shown H.Cell.Kind.means (H.Holder.sheet holder.now)) (judged_find (H.Holder.sheet holder.now).width (H.Holder.sheet holder.now).height fore.now (length fore_table.old) back.now (length back_table.old)) places.old places.new result }
    ensures refused { WhereRefused (judged_find (H.Holder.sheet holder.now).width (H.Holder.sheet holder.now).height fore.now (length fore_table.old) back.now (length back_table.old)) ((fore_table.new ≡ fore_table.old) × (back_table.new ≡ back_table.old)) }
    ensures tables { (length fore_table.new ≡ length fore_table.old) × (length back_table.new ≡ length back_table.old) }
{
    let size = holder.size();
    let fore_plan = Plan::of(fore);
    let back_plan = Plan::of(back);
    admit(size, &fore_plan, fore_table.len())?;
    admit(size, &back_plan, back_table.len())?;
    Ok(scan(
        holder, fore_plan, back_plan, fore_table, back_table, places, size,
    ))
}

// Goes through the rows, lists the hits and answers how many there are, and the picks made. A place without a cell stands as
// the least cell under the fore mask and as the greatest under the back mask, so no hit sees one. A holder is asked for its
// rows by number.
fn scan<H: Holder>(
    h: &H,
    fore: Plan,
    back: Plan,
    fore_table: &mut [H::Cell],
    back_table: &mut [H::Cell],
    places: &mut [Place],
    size: Size,
) -> (usize, u64)
where
    H::Cell: Ranked,
    requires size { (size.width ≤ 2048) × ((size.height ≤ 2048) × ((size.width ≡ (H.Holder.sheet h.now).width) × (size.height ≡ (H.Holder.sheet h.now).height))) }
    requires some { 1 ≤ size.width }
    requires whole { Whole (H.Holder.sheet h.now) }
    requires fore { fore.rows * length (lengths_of fore) * (size.width + 30) ≤ length fore_table.old }
    requires back { back.rows * length (lengths_of back) * (size.width + 30) ≤ length back_table.old }
    ensures picks { result.1 ≡ (size.height + fore.rows - 1) * line_picks size.width (lengths_of fore) + size.height * (size.width * (length (chords_of fore) - 1)) + ((size.height + back.rows - 1) * line_picks size.width (lengths_of back) + size.height * (size.width * (length (chords_of back) - 1))) }
    ensures hits { (fores backs : List Point) → Spells fore fores → Spells back backs → (hits : List Place) × HitList H.Cell.Kind.lattice fores backs (shown H.Cell.Kind.means (H.Holder.sheet h.now)) hits × (result.0 ≡ length hits) × (places.new ≡ listed hits places.old) }
{
    let least = H::Cell::least();
    let greatest = H::Cell::greatest();
    let mut fore = Ring::new(fore, size.width, least);
    let mut back = Ring::new(back, size.width, greatest);
    let mut picks = fore.first_lines::<H, Meets>(h, fore_table);
    picks += back.first_lines::<H, Joins>(h, back_table);
    let mut hits = 0;
    for y in 0..size.height {
        picks += fore.next_row::<H, Meets>(h, y, fore_table);
        picks += back.next_row::<H, Joins>(h, y, back_table);
        hits = list_row(y, fore.row(fore_table), back.row(back_table), places, hits);
    }
    (hits, picks)
}

// Lists the columns of row `y` in which the fore pick lies strictly above the back pick, after the hits listed before, and
// answers how many hits there are now.
fn list_row<K: Ranked>(
    y: usize,
    fores: &[K],
    backs: &[K],
    places: &mut [Place],
    before: usize,
) -> usize
    requires sizes { (length fores.now ≡ length backs.now) × ((length fores.now ≤ 2048) × (before ≤ 2048 * 2048)) }
    ensures few { result ≤ before + length fores.now }
    ensures hits { (qs : List Place) × RowHits K.Kind.lattice K.Kind.means y fores.now backs.now (length fores.now) qs × (result ≡ before + length qs) × (places.new ≡ note before qs places.old) }
{
    let mut hits = before;
    for (x, (fore, back)) in fores.iter().zip(backs).enumerate() {
        if is_hit(*fore, *back) {
            write(places, hits, Place { x, y });
            hits += 1;
        }
    }
    hits
}

// Whether the picks of a place make it a hit: the fore pick lies strictly above the back pick.
fn is_hit<K: Ranked>(fore: K, back: K) -> bool
    ensures { Decides result (Above K.Kind.lattice (K.Kind.means fore) (K.Kind.means back)) }
{
    fore.above(back)
}

// Writes a place into the list, if the list goes so far.
fn write(places: &mut [Place], at: usize, place: Place)
    ensures { places.new ≡ slice_set places.old at place }
{
    if at < places.len() {
        places[at] = place;
    }
}
