// What filters cost on a sheet.
ghost use Rattle.std.specs.Prelude.{◌≡◌, ◌*◌};
ghost use Rattle.masks.specs.Cost.{spanned, table_cells, filter_picks, capped};

use masks::cost;
use masks::mask::Mask;
use sheets::holder::Size;

// What filters under a mask cost on a sheet: the rows V that the mask spans, the cells of the table to lend, the picks of
// an erosion or a dilation, and those of an opening or a closing.
#[derive(Clone, Copy)]
pub struct Costs {
    pub rows: usize,
    pub table: u64,
    pub filter: u64,
    pub opening: u64,
}

// The costs under the mask.
pub fn priced(mask: &Mask, size: Size) -> Costs
    ensures rows { result.rows ≡ spanned mask.now.rows }
    ensures table { result.table ≡ capped (table_cells mask.now.rows size.width) }
    ensures filter { result.filter ≡ capped (filter_picks mask.now.rows size.width size.height) }
    ensures opening { result.opening ≡ capped (2 * filter_picks mask.now.rows size.width size.height) }
{
    let (width, height) = (size.width as u64, size.height as u64);
    Costs {
        rows: cost::rows(mask),
        table: cost::table_cells(mask, width),
        filter: cost::filter_picks(mask, width, height),
        opening: cost::opening_picks(mask, width, height),
    }
}
