// Either side of each limit, told line by line.
use anyhow::anyhow;
use cells::echo::ReturnBits;
use cells::gray::Gray;
use cells::words::WordForm;
use filters::filter::erode;
use masks::chord::ChordList;
use masks::fault::MaskFault;
use masks::mask::Mask;
use masks::point::Point;
use morphology::refusal::Refusal;
use sheets::holder::Size;
use sheets::rows::Rows;
use std::io;
use strips::reader::read;

// Tells of tables, offsets, widths, words and strips.
pub fn tell(rt: &HostRuntime) -> anyhow::Result<()> {
    tell_tables(rt)?;
    tell_points(rt, 15)?;
    tell_points(rt, 16)?;
    tell_widths(rt)?;
    tell_words(rt)?;
    tell_strip(rt, 65_536)?;
    tell_strip(rt, 65_537)
}

// The letter H on a sheet of 4 by 4.
fn tell_tables(rt: &HostRuntime) -> anyhow::Result<()> {
    let letter = [
        Point { u: -1, v: -1 },
        Point { u: 1, v: -1 },
        Point { u: -1, v: 0 },
        Point { u: 0, v: 0 },
        Point { u: 1, v: 0 },
        Point { u: -1, v: 1 },
        Point { u: 1, v: 1 },
    ];
    let mask = made(Mask::from_points(&letter))?;
    let mut table = [Gray(0); 306];
    for length in [306, 305] {
        let mut cells = [Gray(7); 16];
        let answer = erode(&mut Rows::new(4, &mut cells), &mask, &mut table[0..length]);
        print!(rt; "letter H, sheet 4 by 4, table {length}, erode: ")?;
        tell_answer(rt, answer)?;
    }
    Ok(())
}

// The mask, which these points are to make.
fn made(mask: Result<Mask, MaskFault>) -> anyhow::Result<Mask> {
    mask.map_err(|_| anyhow!("the points are no mask"))
}

// The picks of an erosion, or its refusal with what it says.
fn tell_answer(rt: &HostRuntime, answer: Result<u64, Refusal>) -> io::Result<()> {
    match answer {
        Ok(picks) => println!(rt; "picks {picks}"),
        Err(refusal @ Refusal::ShortTable { needed, lent }) => {
            println!(rt; "refused {} needed {needed} lent {lent}", refusal.number())
        }
        Err(refusal @ Refusal::WrongSize(Size { width, height })) => {
            println!(rt;
                "refused {} width {width} height {height}",
                refusal.number()
            )
        }
        Err(refusal) => println!(rt; "refused {}", refusal.number()),
    }
}

// The origin and a point east of it.
fn tell_points(rt: &HostRuntime, u: i32) -> anyhow::Result<()> {
    print!(rt; "points (0, 0) ({u}, 0): ")?;
    match Mask::from_points(&[Point { u: 0, v: 0 }, Point { u, v: 0 }]) {
        Ok(mask) => println!(rt;
            "mask {} chords {}",
            mask.count(),
            ChordList::of(&mask).as_slice().len()
        )?,
        Err(fault @ MaskFault::Beyond(place)) => {
            println!(rt; "refused {} place {place}", fault.number())?
        }
        Err(fault) => println!(rt; "refused {}", fault.number())?,
    }
    Ok(())
}

// Sheets of one row.
fn tell_widths(rt: &HostRuntime) -> anyhow::Result<()> {
    let mask = made(Mask::from_points(&[Point { u: 0, v: 0 }, Point { u: 1, v: 0 }]))?;
    let alloc = rt.alloc();
    let mut table = vec![in alloc; Gray(0); 16_384]?;
    for width in [2048, 2049] {
        let mut cells = vec![in alloc; Gray(7); width]?;
        let answer = erode(
            &mut Rows::new(width, cells.as_mut_slice()),
            &mask,
            table.as_mut_slice(),
        );
        print!(rt; "points (0, 0) (1, 0), sheet {width} by 1, table 16384, erode: ")?;
        tell_answer(rt, answer)?;
    }
    Ok(())
}

// Words that are just cells, and words that are none.
fn tell_words(rt: &HostRuntime) -> anyhow::Result<()> {
    for word in [255, 256] {
        print!(rt; "gray word {word}: ")?;
        tell_cell(rt, <Gray as WordForm>::from_word(word).is_some())?;
    }
    for word in [0x7f80_0000, 0x7f80_0001] {
        print!(rt; "return word {word:08X}: ")?;
        tell_cell(rt, <ReturnBits as WordForm>::from_word(word).is_some())?;
    }
    Ok(())
}

// Whether a word is a cell.
fn tell_cell(rt: &HostRuntime, is_cell: bool) -> io::Result<()> {
    if is_cell {
        println!(rt; "a cell")
    } else {
        println!(rt; "no cell")
    }
}

// A strip of one cell and as many points as there is room for.
fn tell_strip(rt: &HostRuntime, length: usize) -> anyhow::Result<()> {
    let alloc = rt.alloc();
    let mut bytes = Vec::new(alloc);
    push_word(&mut bytes, 0x1100_1001)?;
    push_word(&mut bytes, 0x2000_0001)?;
    push_word(&mut bytes, 7)?;
    for _ in 0..16_380 {
        push_word(&mut bytes, 0x5000_01ef)?;
    }
    push_word(&mut bytes, 0x7000_0000)?;
    bytes.resize(length, 0)?;
    print!(rt; "strip of {} bytes: ", bytes.len())?;
    match read(bytes.as_slice()) {
        Ok(job) => println!(rt; "read, steps {}", job.steps())?,
        Err(fault) => println!(rt; "refused {} word {}", fault.number(), fault.word())?,
    }
    Ok(())
}

// Four bytes, the highest first.
fn push_word(bytes: &mut Vec<u8>, word: u32) -> anyhow::Result<()> {
    bytes.extend_from_slice(&word.to_be_bytes())?;
    Ok(())
}
