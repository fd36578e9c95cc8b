// Copying one holder's sheet into another of its size. The loops go by number, since the places of a holder are no list.
ghost use Rattle.std.specs.Prelude.{◌≡◌, ◌&&◌, if◌then◌else◌, ◌==◌, nat_lt};
ghost use Rattle.sheets.specs.Copied.{copied_where, same_size};

use crate::holder::Holder;

// Makes the sheet of `to` that of `from`; where their sizes differ it changes nothing and answers no.
pub fn copy_into<G: Holder, H: Holder<Cell = G::Cell>>(from: &G, to: &mut H) -> bool
    ensures answer { result ≡ same_size (G.Holder.sheet from.now) (H.Holder.sheet to.old) }
    ensures after { H.Holder.sheet to.new ≡ (if result then G.Holder.sheet from.now else H.Holder.sheet to.old) }
{
    let size = from.size();
    if to.size() != size {
        return false;
    }
    for y in 0..size.height {
        copy_row(from, to, size.width, y);
    }
    true
}

// Copies the first w cells of row y, where both holders have them.
fn copy_row<G: Holder, H: Holder<Cell = G::Cell>>(from: &G, to: &mut H, w: usize, y: usize)
    ensures { H.Holder.sheet to.new ≡ copied_where (λ i j. (j == y) && nat_lt i w) (G.Holder.sheet from.now) (H.Holder.sheet to.old) }
{
    for x in 0..w {
        if let Some(c) = from.cell(x, y) {
            let _ = to.put(x, y, c);
        }
    }
}
