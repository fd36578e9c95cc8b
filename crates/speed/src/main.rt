// Erodes a made-up gray sheet of 2,048 by 2,048 under a disk of diameter 31. Prints a checksum of the result on standard
// output, and the best time of some runs on standard error.
#![tactic(auto)]

use anyhow::anyhow;
use cells::gray::Gray;
use filters::filter::erode;
use masks::mask::Mask;
use masks::point::Point;
use sheets::rows::Rows;
use std::time::{Duration, Instant};

// The sheet's width and height.
const SIDE: usize = 2048;

// The cells of the table: 31 rows, 13 lengths, 2,048 + 30 columns.
const TABLE: usize = 31 * 13 * 2078;

// How often the erosion is timed.
const RUNS: usize = 7;

fn main(rt: HostRuntime) -> anyhow::Result<()> {
    let mut points = Vec::new(rt.alloc());
    for v in -15..16 {
        for u in -15..16 {
            if in_disk(u, v) {
                points.push(Point { u, v })?;
            }
        }
    }
    // With `map_err` and `vec!` in this function the erosion was compiled so that it ran a third longer.
    let Ok(mask) = Mask::from_points(points.as_slice()) else {
        return Err(anyhow!("the disk is no mask"));
    };
    let mut cells = Vec::new(rt.alloc());
    cells.resize(SIDE * SIDE, Gray(0))?;
    let mut table = Vec::new(rt.alloc());
    table.resize(TABLE, Gray(0))?;
    let mut best = Duration::MAX;
    for _ in 0..RUNS {
        make_up(cells.as_mut_slice());
        let start = Instant::now(&rt)?;
        let answer = erode(
            &mut Rows::new(SIDE, cells.as_mut_slice()),
            &mask,
            table.as_mut_slice(),
        );
        let time = start.elapsed(&rt)?;
        if answer.is_err() {
            return Err(anyhow!("the erosion is refused"));
        }
        best = best.min(time);
    }
    println!(rt; "sum {}", checksum(cells.as_slice()))?;
    eprintln!(rt; "best of {} runs: {} us", RUNS, best.as_micros())?;
    Ok(())
}

// Whether a point lies in the disk of diameter 31 about the origin.
fn in_disk(u: i32, v: i32) -> bool {
    u.saturating_mul(u).saturating_add(v.saturating_mul(v)) <= 240
}

// Cells from a linear congruential generator, from one seed.
fn make_up(cells: &mut [Gray]) {
    let mut seed: u32 = 1;
    for cell in cells.iter_mut() {
        seed = seed.wrapping_mul(1664525).wrapping_add(1013904223);
        *cell = Gray((seed >> 24) as u8);
    }
}

// A number that tells sheets apart.
fn checksum(cells: &[Gray]) -> u64 {
    let mut sum: u64 = 0;
    for cell in cells {
        sum = sum.wrapping_mul(31).wrapping_add(u64::from(cell.0));
    }
    sum
}
