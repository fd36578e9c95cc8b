// The filters of sheets that lie row by row in lent cells. Cells after the last whole row are not on the sheet.
ghost use Rattle.std.specs.Prelude.{◌≡◌, length};
ghost use Rattle.sheets.specs.Rows.{whole_rows};
ghost use Rattle.morphology.specs.declared.call.Filter.TheVariants.{Erode, Open};
ghost use Rattle.filters_c.specs.Told.{told, answered_under};

use crate::told::Told;
use cells::echo::ReturnBits;
use cells::gray::Gray;
use cells::height::Height;
use cells::kind::Kind;
use masks::mask::Mask;
use morphology::call::Filter;
use sheets::rows::Rows;
use worksheets::worksheet::Worksheet;

// Erodes a sheet of gray under the mask, with the lent table.
#[unsafe(no_mangle)]
pub extern "C" fn kelundap_erode_gray(
    width: usize,
    cells: &mut [Gray],
    mask: &Mask,
    table: &mut [Gray],
) -> Told
    ensures { result ≡ told (answered_under mask.now Erode (length table.old) (whole_rows width cells.old)) }
{
    filter(Filter::Erode, width, cells, mask, table)
}

// Opens a sheet of gray.
#[unsafe(no_mangle)]
pub extern "C" fn kelundap_open_gray(
    width: usize,
    cells: &mut [Gray],
    mask: &Mask,
    table: &mut [Gray],
) -> Told
    ensures { result ≡ told (answered_under mask.now Open (length table.old) (whole_rows width cells.old)) }
{
    filter(Filter::Open, width, cells, mask, table)
}

// Erodes a sheet of heights.
#[unsafe(no_mangle)]
pub extern "C" fn kelundap_erode_height(
    width: usize,
    cells: &mut [Height],
    mask: &Mask,
    table: &mut [Height],
) -> Told
    ensures { result ≡ told (answered_under mask.now Erode (length table.old) (whole_rows width cells.old)) }
{
    filter(Filter::Erode, width, cells, mask, table)
}

// Erodes a sheet of returns.
#[unsafe(no_mangle)]
pub extern "C" fn kelundap_erode_return(
    width: usize,
    cells: &mut [ReturnBits],
    mask: &Mask,
    table: &mut [ReturnBits],
) -> Told
    ensures { result ≡ told (answered_under mask.now Erode (length table.old) (whole_rows width cells.old)) }
{
    filter(Filter::Erode, width, cells, mask, table)
}

// One filter of a sheet of any kind.
fn filter<K: Kind>(
    filter: Filter,
    width: usize,
    cells: &mut [K],
    mask: &Mask,
    table: &mut [K],
) -> Told
    ensures { result ≡ told (answered_under mask.now filter (length table.old) (whole_rows width cells.old)) }
{
    let mut worksheet = Worksheet::new(Rows::new(width, cells));
    worksheet.lay(*mask);
    Told::from(worksheet.apply(filter, table))
}
