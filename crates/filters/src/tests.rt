// Worked examples of one erosion and one dilation: each kind of cell in each holder, and the edges of what is refused.
use crate::filter::{dilate, erode};
use crate::find::find;
use cells::echo::ReturnBits;
use cells::flags::Flags;
use cells::gray::Gray;
use cells::height::Height;
use cells::kind::Kind;
use masks::fault::MaskFault;
use masks::mask::Mask;
use masks::point::Point;
use morphology::place::Place;
use morphology::refusal::Refusal;
use sheets::holder::{Holder, Size};
use sheets::rows::Rows;
use sheets::south_up::SouthUp;
use sheets::tiles::Tiles;
use sheets::window::{Rectangle, Window};
use std::fmt::Debug;
use std::process::Abort;
use std::test::Fail;

// A row of three cells, and what the filters make of it under the pair. The tests of worksheets have examples of their own:
// what asserts may stand in tests alone, and no crate can call another's tests.
#[derive(Clone, Copy)]
struct Example<C> {
    row: [C; 3],
    eroded: [C; 3],
    dilated: [C; 3],
}

// The origin and its east neighbour.
fn pair() -> Result<Mask, MaskFault> {
    Mask::from_points(&[Point { u: 0, v: 0 }, Point { u: 1, v: 0 }])
}

// The letter H, three points wide and high.
fn letter() -> Result<Mask, MaskFault> {
    Mask::from_points(&[
        Point { u: -1, v: -1 },
        Point { u: 1, v: -1 },
        Point { u: -1, v: 0 },
        Point { u: 0, v: 0 },
        Point { u: 1, v: 0 },
        Point { u: -1, v: 1 },
        Point { u: 1, v: 1 },
    ])
}

// Holds a row of three cells to what is wanted.
fn shows<H: Holder>(rt: &impl Abort, holder: &H, wanted: [H::Cell; 3])
where
    H::Cell: Kind + PartialEq + Debug,
{
    for (x, cell) in wanted.iter().enumerate() {
        assert_eq!(rt; holder.cell(x, 0), Some(*cell));
    }
}

// Puts a row of three cells on the sheet.
fn load<H: Holder>(rt: &impl Abort, holder: &mut H, row: [H::Cell; 3])
where
    H::Cell: Kind,
{
    for (x, cell) in row.iter().enumerate() {
        assert!(rt; holder.put(x, 0, *cell));
    }
}

// Erodes and dilates the example, loaded anew, in a holder of 3 by 1.
fn filters<H: Holder>(
    rt: &impl Abort,
    holder: &mut H,
    table: &mut [H::Cell],
    example: Example<H::Cell>,
) -> Result<(), Fail>
where
    H::Cell: Kind + PartialEq + Debug,
{
    load(rt, holder, example.row);
    assert_eq!(rt; erode(holder, &pair()?, table), Ok(32));
    shows(rt, holder, example.eroded);
    load(rt, holder, example.row);
    assert_eq!(rt; dilate(holder, &pair()?, table), Ok(32));
    shows(rt, holder, example.dilated);
    Ok(())
}

// The example in rows, in a square of 8 by 8 cells, and at the end of the southern of two rows, where the cell beside it
// stays. The cells are 64.
fn in_each_holder<K: Kind + PartialEq + Debug>(
    rt: &impl Abort,
    cells: &mut [K],
    table: &mut [K],
    example: Example<K>,
) -> Result<(), Fail> {
    assert!(rt; cells.len() == 64);
    filters(rt, &mut Rows::new(3, &mut cells[0..3]), table, example)?;
    filters(rt, &mut Tiles::new(3, 1, &mut cells[0..64]), table, example)?;
    let beside = example.row[1];
    cells[4] = beside;
    filters(rt, &mut in_the_south(&mut cells[0..8]), table, example)?;
    assert_eq!(rt; cells[4], beside);
    Ok(())
}

// The last three columns of the southern of two rows, which lie south-up.
fn in_the_south<'a, K: Kind>(cells: &'a mut [K]) -> Window<SouthUp<Rows<'a, K>>> {
    let size = Size {
        width: 9,
        height: 1,
    };
    Window::new(
        SouthUp::new(Rows::new(4, cells)),
        Rectangle {
            left: 1,
            top: 0,
            size,
        },
    )
}

#[test]
fn gray_is_filtered(rt: HostRuntime) -> Result<(), Fail> {
    let example = Example {
        row: [Gray(7), Gray(9), Gray(4)],
        eroded: [Gray(7), Gray(4), Gray(4)],
        dilated: [Gray(7), Gray(9), Gray(9)],
    };
    in_each_holder(&rt, &mut [Gray(0); 64], &mut [Gray(0); 66], example)
}

#[test]
fn heights_are_filtered(rt: HostRuntime) -> Result<(), Fail> {
    let example = Example {
        row: [Height(-7), Height(9), Height(4)],
        eroded: [Height(-7), Height(4), Height(4)],
        dilated: [Height(-7), Height(9), Height(9)],
    };
    in_each_holder(&rt, &mut [Height(0); 64], &mut [Height(0); 66], example)
}

#[test]
fn flags_are_filtered(rt: HostRuntime) -> Result<(), Fail> {
    let example = Example {
        row: [Flags(1), Flags(2), Flags(6)],
        eroded: [Flags(0), Flags(2), Flags(6)],
        dilated: [Flags(1), Flags(3), Flags(6)],
    };
    in_each_holder(&rt, &mut [Flags(0); 64], &mut [Flags(0); 66], example)
}

// The floats 7, 9 and 4.
#[test]
fn returns_are_filtered(rt: HostRuntime) -> Result<(), Fail> {
    let seven = ReturnBits(0x40e0_0000);
    let nine = ReturnBits(0x4110_0000);
    let four = ReturnBits(0x4080_0000);
    let zero = ReturnBits(0);
    let example = Example {
        row: [seven, nine, four],
        eroded: [seven, four, four],
        dilated: [seven, nine, nine],
    };
    in_each_holder(&rt, &mut [zero; 64], &mut [zero; 66], example)
}

// What the letter answers on a sheet 4 by 4, with a table of so many cells.
fn letter_answer(table: &mut [Gray]) -> Result<Result<u64, Refusal>, MaskFault> {
    let mask = letter()?;
    let mut cells = [Gray(7); 16];
    Ok(erode(&mut Rows::new(4, &mut cells), &mask, table))
}

#[test]
fn the_letter_wants_306_cells(rt: HostRuntime) -> Result<(), Fail> {
    let mut enough = [Gray(0); 306];
    assert_eq!(rt; letter_answer(&mut enough)?, Ok(454));
    let mut short = [Gray(0); 305];
    assert_eq!(rt;
        letter_answer(&mut short)?,
        Err(Refusal::ShortTable {
            needed: 306,
            lent: 305
        })
    );
    Ok(())
}

#[test]
fn a_sheet_is_at_most_2048_wide(rt: HostRuntime) -> Result<(), Fail> {
    let mask = pair()?;
    let mut table = [Gray(0); 4158];
    let mut widest = [Gray(7); 2048];
    assert_eq!(rt;
        erode(&mut Rows::new(2048, &mut widest), &mask, &mut table),
        Ok(2077)
    );
    let mut wider = [Gray(7); 2049];
    assert_eq!(rt;
        erode(&mut Rows::new(2049, &mut wider), &mask, &mut table),
        Err(Refusal::WrongSize(Size {
            width: 2049,
            height: 1,
        }))
    );
    Ok(())
}

// The gray cells 9 2 9, searched for a cell above its east neighbour; the last has no such neighbour.
fn search(places: &mut [Place]) -> Result<Result<(usize, u64), Refusal>, MaskFault> {
    let east = Mask::from_points(&[Point { u: 1, v: 0 }])?;
    let mut cells = [Gray(9), Gray(2), Gray(9)];
    let answer = find(
        &Rows::new(3, &mut cells),
        &Mask::fresh(),
        &east,
        &mut [Gray(0); 33],
        &mut [Gray(0); 40],
        places,
    );
    Ok(answer)
}

#[test]
fn one_cell_is_above_its_neighbour(rt: HostRuntime) -> Result<(), Fail> {
    let unused = Place { x: 7, y: 7 };
    let hit = Place { x: 0, y: 0 };
    let mut three = [unused; 3];
    assert_eq!(rt; search(&mut three)?, Ok((1, 0)));
    assert_eq!(rt; three, [hit, unused, unused]);
    let mut one = [unused];
    assert_eq!(rt; search(&mut one)?, Ok((1, 0)));
    assert_eq!(rt; one, [hit]);
    assert_eq!(rt; search(&mut [])?, Ok((1, 0)));
    Ok(())
}

// Four heights lie above both the neighbour to the east and the one to the south; the list has room for three.
#[test]
fn hits_are_listed_in_row_order(rt: HostRuntime) -> Result<(), Fail> {
    let corner = Mask::from_points(&[Point { u: 1, v: 0 }, Point { u: 0, v: 1 }])?;
    let mut cells = [
        Height(-1),
        Height(-2),
        Height(-9),
        Height(-3),
        Height(-5),
        Height(-7),
        Height(-8),
        Height(-9),
        Height(-6),
    ];
    let mut places = [Place { x: 7, y: 7 }; 3];
    let answer = find(
        &Rows::new(3, &mut cells),
        &Mask::fresh(),
        &corner,
        &mut [Height(0); 33],
        &mut [Height(0); 66],
        &mut places,
    );
    assert_eq!(rt; answer, Ok((4, 9)));
    assert_eq!(rt;
        places,
        [
            Place { x: 0, y: 0 },
            Place { x: 1, y: 0 },
            Place { x: 0, y: 1 },
        ]
    );
    Ok(())
}

// What a search of 3 by 1 gray cells answers by the pair and the letter, with tables of so many cells.
fn search_with(
    fore_table: &mut [Gray],
    back_table: &mut [Gray],
) -> Result<Result<(usize, u64), Refusal>, MaskFault> {
    let fore = pair()?;
    let back = letter()?;
    let mut cells = [Gray(9), Gray(2), Gray(9)];
    let sheet = Rows::new(3, &mut cells);
    Ok(find(&sheet, &fore, &back, fore_table, back_table, &mut []))
}

#[test]
fn find_asks_for_the_fore_table_first(rt: HostRuntime) -> Result<(), Fail> {
    let short = Refusal::ShortTable {
        needed: 66,
        lent: 65,
    };
    assert_eq!(rt;
        search_with(&mut [Gray(0); 65], &mut [Gray(0); 1])?,
        Err(short)
    );
    let short = Refusal::ShortTable {
        needed: 297,
        lent: 296,
    };
    assert_eq!(rt;
        search_with(&mut [Gray(0); 66], &mut [Gray(0); 296])?,
        Err(short)
    );
    assert_eq!(rt;
        search_with(&mut [Gray(0); 66], &mut [Gray(0); 297])?,
        Ok((0, 233))
    );
    Ok(())
}
