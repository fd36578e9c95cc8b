// A mask drawn again.
ghost use Rattle.std.specs.Prelude.{◌≡◌, ◌<◌, ◌&&◌, map, pos, IfOk, string_bytes};
ghost use Rattle.std.specs.Ordering.{int_eq};
ghost use Rattle.drawings.specs.Pictures.{sign_at};

use masks::mask::Mask;
use masks::point::Point;
use std::alloc::{AllocError, Global};

// The signs of the points in row v, one for each of the columns.
pub fn picture_row(heap: Global, mask: &Mask, v: i32, columns: &[i32]) -> Result<String, AllocError>
    ensures { IfOk result (λ s. string_bytes s ≡ map (sign_at mask.now.rows v) columns.now) }
{
    let mut row = String::new(heap);
    for u in columns {
        row.push(sign(mask, *u, v))?;
    }
    Ok(row)
}

// The sign for a point.
fn sign(mask: &Mask, u: i32, v: i32) -> char
    ensures ascii { result < 128 }
    ensures answer { result ≡ sign_at mask.now.rows v u }
{
    let held = mask.holds(Point { u, v });
    if is_origin(u, v) {
        if held { '@' } else { 'o' }
    } else if held {
        '#'
    } else {
        '.'
    }
}

// Whether both offsets are none.
fn is_origin(u: i32, v: i32) -> bool
    ensures { result ≡ (int_eq u (pos 0) && int_eq v (pos 0)) }
{
    u == 0 && v == 0
}
