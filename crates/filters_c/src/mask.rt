// Masks, which a caller keeps and lends to the filters.
ghost use Rattle.std.specs.Prelude.{◌≡◌, ◌∷◌, [], Some, None};
ghost use Rattle.masks.specs.Cost.{table_cells, capped};
ghost use Rattle.masks.specs.Faults.{refused};
ghost use Rattle.masks.specs.Points.{origin};
ghost use Rattle.masks.specs.Rows.{Drawn};
ghost use Rattle.filters_c.specs.Told.{told_mask, KeptOrDrawn};

use masks::cost::table_cells;
use masks::mask::Mask;
use masks::point::Point;

// The mask of the origin alone.
#[unsafe(no_mangle)]
pub extern "C" fn kelundap_fresh_mask() -> Mask
    ensures { Drawn result.rows (origin ∷ []) }
{
    Mask::fresh()
}

// Makes the mask that of the listed points, or leaves it as it is and tells the number of the refusal.
#[unsafe(no_mangle)]
pub extern "C" fn kelundap_draw_mask(mask: &mut Mask, points: &[Point]) -> u8
    ensures told { result ≡ told_mask (refused points.now) }
    ensures mask { KeptOrDrawn (refused points.now) points.now mask.old.rows mask.new.rows }
{
    match Mask::from_points(points) {
        Ok(drawn) => {
            *mask = drawn;
            0
        }
        Err(fault) => fault.number(),
    }
}

// How many cells a table needs for sheets of the width.
#[unsafe(no_mangle)]
pub extern "C" fn kelundap_table_cells(mask: &Mask, width: u64) -> u64
    ensures { result ≡ capped (table_cells mask.now.rows width) }
{
    table_cells(mask, width)
}
