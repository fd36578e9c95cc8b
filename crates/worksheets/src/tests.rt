// Worked examples of the five calls at each kind of cell and in each holder, and of lists of calls with refusals.
use crate::both::run_both;
use crate::worksheet::Worksheet;
use cells::echo::ReturnBits;
use cells::flags::Flags;
use cells::gray::Gray;
use cells::height::Height;
use cells::kind::{Kind, Measured};
use masks::fault::MaskFault;
use masks::mask::Mask;
use masks::point::Point;
use morphology::call::{Answer, Call, Filter};
use morphology::refusal::Refusal;
use sheets::holder::{Holder, Size};
use sheets::rows::Rows;
use sheets::south_up::SouthUp;
use sheets::tiles::Tiles;
use sheets::window::{Rectangle, Window};
use std::fmt::Debug;
use std::process::Abort;
use std::test::Fail;

// A row of three cells, and what the filters make of it under the pair. The tests of filters have examples of their own: what
// asserts may stand in tests alone, and no crate can call another's tests.
#[derive(Clone, Copy)]
struct Example<C> {
    loaded: [C; 3],
    eroded: [C; 3],
    dilated: [C; 3],
    opened: [C; 3],
    closed: [C; 3],
    opened_closed: [C; 3],
}

// The origin and its east neighbour.
fn pair() -> Result<Mask, MaskFault> {
    Mask::from_points(&[Point { u: 0, v: 0 }, Point { u: 1, v: 0 }])
}

// A worksheet of the row under the pair, made over a holder of 3 by 1.
fn load<H: Holder + Drop>(
    rt: &impl Abort,
    mut holder: H,
    row: [H::Cell; 3],
) -> Result<Worksheet<H>, Fail>
where
    H::Cell: Kind,
{
    for (x, cell) in row.iter().enumerate() {
        assert!(rt; holder.put(x, 0, *cell));
    }
    let mut sheet = Worksheet::new(holder);
    sheet.lay(pair()?);
    Ok(sheet)
}

// Holds a row of three cells to what is wanted.
fn shows<H: Holder>(rt: &impl Abort, holder: &H, wanted: [H::Cell; 3])
where
    H::Cell: Kind + PartialEq + Debug,
{
    for (x, cell) in wanted.iter().enumerate() {
        assert_eq!(rt; holder.cell(x, 0), Some(*cell));
    }
}

// Makes each call on the example, loaded anew, over a holder of 3 by 1.
fn filters<H: Holder + Drop>(
    rt: &impl Abort,
    holder: H,
    table: &mut [H::Cell],
    example: Example<H::Cell>,
) -> Result<(), Fail>
where
    H::Cell: Kind + PartialEq + Debug,
{
    let mut sheet = load(rt, holder, example.loaded)?;
    assert_eq!(rt; sheet.erode(table), Ok(32));
    shows(rt, sheet.holder(), example.eroded);
    let mut sheet = load(rt, sheet.into_holder(), example.loaded)?;
    assert_eq!(rt; sheet.dilate(table), Ok(32));
    shows(rt, sheet.holder(), example.dilated);
    let mut sheet = load(rt, sheet.into_holder(), example.loaded)?;
    assert_eq!(rt; sheet.close(table), Ok(64));
    shows(rt, sheet.holder(), example.closed);
    let mut sheet = load(rt, sheet.into_holder(), example.loaded)?;
    assert_eq!(rt; sheet.open(table), Ok(64));
    shows(rt, sheet.holder(), example.opened);
    assert_eq!(rt; sheet.close(table), Ok(64));
    shows(rt, sheet.holder(), example.opened_closed);
    Ok(())
}

// The example over rows, over tiles, and over a window over south-up.
fn in_each_holder<K: Kind + PartialEq + Debug>(
    rt: &impl Abort,
    cells: &mut [K],
    table: &mut [K],
    example: Example<K>,
) -> Result<(), Fail> {
    assert!(rt; cells.len() == 64);
    filters(rt, Rows::new(3, &mut cells[0..3]), table, example)?;
    filters(rt, Tiles::new(3, 1, &mut cells[0..64]), table, example)?;
    let upside_down = SouthUp::new(Rows::new(4, &mut cells[0..8]));
    let size = Size {
        width: 9,
        height: 1,
    };
    let asked = Rectangle {
        left: 1,
        top: 0,
        size,
    };
    filters(rt, Window::new(upside_down, asked), table, example)
}

#[test]
fn gray_is_filtered(rt: HostRuntime) -> Result<(), Fail> {
    let example = Example {
        loaded: [Gray(7), Gray(9), Gray(4)],
        eroded: [Gray(7), Gray(4), Gray(4)],
        dilated: [Gray(7), Gray(9), Gray(9)],
        opened: [Gray(7), Gray(7), Gray(4)],
        closed: [Gray(7), Gray(9), Gray(9)],
        opened_closed: [Gray(7), Gray(7), Gray(7)],
    };
    in_each_holder(&rt, &mut [Gray(0); 64], &mut [Gray(0); 66], example)
}

#[test]
fn heights_are_filtered(rt: HostRuntime) -> Result<(), Fail> {
    let example = Example {
        loaded: [Height(-2), Height(9), Height(-5)],
        eroded: [Height(-2), Height(-5), Height(-5)],
        dilated: [Height(-2), Height(9), Height(9)],
        opened: [Height(-2), Height(-2), Height(-5)],
        closed: [Height(-2), Height(9), Height(9)],
        opened_closed: [Height(-2), Height(-2), Height(-2)],
    };
    in_each_holder(&rt, &mut [Height(0); 64], &mut [Height(0); 66], example)
}

#[test]
fn flags_are_filtered(rt: HostRuntime) -> Result<(), Fail> {
    let example = Example {
        loaded: [Flags(1), Flags(2), Flags(6)],
        eroded: [Flags(0), Flags(2), Flags(6)],
        dilated: [Flags(1), Flags(3), Flags(6)],
        opened: [Flags(0), Flags(2), Flags(6)],
        closed: [Flags(1), Flags(2), Flags(6)],
        opened_closed: [Flags(0), Flags(2), Flags(6)],
    };
    in_each_holder(&rt, &mut [Flags(0); 64], &mut [Flags(0); 66], example)
}

// The floats 7, 9 and 4.
#[test]
fn returns_are_filtered(rt: HostRuntime) -> Result<(), Fail> {
    let seven = ReturnBits(0x40e0_0000);
    let nine = ReturnBits(0x4110_0000);
    let four = ReturnBits(0x4080_0000);
    let example = Example {
        loaded: [seven, nine, four],
        eroded: [seven, four, four],
        dilated: [seven, nine, nine],
        opened: [seven, seven, four],
        closed: [seven, nine, nine],
        opened_closed: [seven, seven, seven],
    };
    let zero = ReturnBits(0);
    in_each_holder(&rt, &mut [zero; 64], &mut [zero; 66], example)
}

#[test]
fn two_flags_are_dilated_and_eroded(rt: HostRuntime) -> Result<(), Fail> {
    let mut table = [Flags(0); 64];
    let mut cells = [Flags(1), Flags(2)];
    let mut sheet = Worksheet::new(Rows::new(2, &mut cells));
    sheet.lay(pair()?);
    assert_eq!(rt; sheet.dilate(&mut table), Ok(31));
    assert_eq!(rt; cells, [Flags(1), Flags(3)]);
    let mut cells = [Flags(1), Flags(2)];
    let mut sheet = Worksheet::new(Rows::new(2, &mut cells));
    sheet.lay(pair()?);
    assert_eq!(rt; sheet.erode(&mut table), Ok(31));
    assert_eq!(rt; cells, [Flags(0), Flags(2)]);
    Ok(())
}

// No place that the mask points at has a cell.
#[test]
fn one_cell_beside_its_mask_is_lost(rt: HostRuntime) -> Result<(), Fail> {
    let east = Mask::from_points(&[Point { u: 1, v: 0 }])?;
    let mut table = [Gray(0); 31];
    let mut cells = [Gray(7)];
    let mut sheet = Worksheet::new(Rows::new(1, &mut cells));
    sheet.lay(east);
    assert_eq!(rt; sheet.open(&mut table), Ok(0));
    assert_eq!(rt; sheet.holder().cell(0, 0), Some(Gray(0)));
    assert_eq!(rt; sheet.close(&mut table), Ok(0));
    assert_eq!(rt; sheet.holder().cell(0, 0), Some(Gray(255)));
    Ok(())
}

#[test]
fn a_filter_before_any_lay_is_refused(rt: HostRuntime) {
    let mut table = [Gray(0); 66];
    let mut cells = [Gray(7), Gray(9), Gray(4)];
    let mut sheet = Worksheet::new(Rows::new(3, &mut cells));
    assert_eq!(rt; sheet.erode(&mut table), Err(Refusal::NoMask));
    assert_eq!(rt; sheet.dilate(&mut table), Err(Refusal::NoMask));
    assert_eq!(rt; sheet.open(&mut table), Err(Refusal::NoMask));
    assert_eq!(rt; sheet.close(&mut table), Err(Refusal::NoMask));
    assert_eq!(rt; Refusal::NoMask.number(), 10);
    assert_eq!(rt; cells, [Gray(7), Gray(9), Gray(4)]);
    let mut nothing = Worksheet::new(Rows::new(0, &mut cells));
    assert_eq!(rt;
        nothing.open(&mut table),
        Err(Refusal::WrongSize(Size::NONE))
    );
}

#[test]
fn a_list_goes_on_after_a_refusal(rt: HostRuntime) -> Result<(), Fail> {
    let calls = [
        Call::Apply(Filter::Open, 66),
        Call::Lay(pair()?),
        Call::Apply(Filter::Open, 65),
        Call::Apply(Filter::Open, 66),
        Call::Apply(Filter::Close, 1000),
    ];
    let mut told = [Answer::Laid; 6];
    let mut table = [Gray(0); 66];
    let mut cells = [Gray(7), Gray(9), Gray(4)];
    let mut sheet = Worksheet::new(Rows::new(3, &mut cells));
    assert_eq!(rt; sheet.run(&calls, &mut told, &mut table), 5);
    assert_eq!(rt;
        told,
        [
            Answer::Refused(Refusal::NoMask),
            Answer::Laid,
            Answer::Refused(Refusal::ShortTable {
                needed: 66,
                lent: 65
            }),
            Answer::Picks(64),
            Answer::Picks(64),
            Answer::Laid,
        ]
    );
    assert_eq!(rt; cells, [Gray(7), Gray(7), Gray(7)]);
    Ok(())
}

// The threshold at 5, before and after.
#[test]
fn one_list_runs_on_gray_and_on_its_threshold(rt: HostRuntime) -> Result<(), Fail> {
    let calls = [
        Call::Lay(pair()?),
        Call::Apply(Filter::Open, 66),
        Call::Apply(Filter::Erode, 65),
        Call::Apply(Filter::Close, 66),
    ];
    let answers = [
        Answer::Laid,
        Answer::Picks(64),
        Answer::Refused(Refusal::ShortTable {
            needed: 66,
            lent: 65,
        }),
        Answer::Picks(64),
    ];
    let mut told = [Answer::Laid; 4];
    let mut told_too = [Answer::Laid; 4];
    let mut grays = [Gray(7), Gray(9), Gray(4)];
    let mut flags = [Flags(255), Flags(255), Flags(0)];
    let count = run_both(
        &mut Worksheet::new(Rows::new(3, &mut grays)),
        &mut Worksheet::new(Rows::new(3, &mut flags)),
        &calls,
        &mut told,
        &mut told_too,
        &mut [Gray(0); 66],
        &mut [Flags(0); 66],
    );
    assert_eq!(rt; count, 4);
    assert_eq!(rt; told, answers);
    assert_eq!(rt; told_too, answers);
    assert_eq!(rt; grays, [Gray(7), Gray(7), Gray(7)]);
    assert_eq!(rt; flags, [Flags(255), Flags(255), Flags(255)]);
    Ok(())
}

// Two places for answers on one side, so that two calls are made on both: the lay and the erosion.
#[test]
fn a_call_without_a_place_for_its_answer_is_not_made(rt: HostRuntime) -> Result<(), Fail> {
    let calls = [
        Call::Lay(pair()?),
        Call::Apply(Filter::Erode, 66),
        Call::Apply(Filter::Erode, 66),
    ];
    let mut told = [Answer::Laid; 3];
    let mut told_too = [Answer::Laid; 2];
    let mut grays = [Gray(7), Gray(9), Gray(4)];
    let mut flags = [Flags(255), Flags(255), Flags(0)];
    let count = run_both(
        &mut Worksheet::new(Rows::new(3, &mut grays)),
        &mut Worksheet::new(Rows::new(3, &mut flags)),
        &calls,
        &mut told,
        &mut told_too,
        &mut [Gray(0); 66],
        &mut [Flags(0); 66],
    );
    assert_eq!(rt; count, 2);
    assert_eq!(rt; told, [Answer::Laid, Answer::Picks(32), Answer::Laid]);
    assert_eq!(rt; grays, [Gray(7), Gray(4), Gray(4)]);
    assert_eq!(rt; flags, [Flags(255), Flags(0), Flags(0)]);
    Ok(())
}

// The mid of a row of three under the pair, with a second holder that is given.
fn middles<H: Holder + Drop, G: Holder<Cell = H::Cell>>(
    rt: &impl Abort,
    holder: H,
    second: &mut G,
    row: [H::Cell; 3],
    table: &mut [H::Cell],
    mid: [H::Cell; 3],
    closed: [H::Cell; 3],
) -> Result<(), Fail>
where
    H::Cell: Measured + PartialEq + Debug,
{
    let mut sheet = load(rt, holder, row)?;
    assert_eq!(rt; sheet.mid(second, table), Ok(128));
    shows(rt, sheet.holder(), mid);
    shows(rt, second, closed);
    Ok(())
}

#[test]
fn a_mid_lies_halfway_in_rows_and_tiles(rt: HostRuntime) -> Result<(), Fail> {
    let row = [Gray(7), Gray(9), Gray(4)];
    let mid = [Gray(7), Gray(8), Gray(6)];
    let closed = [Gray(7), Gray(9), Gray(9)];
    let mut cells = [Gray(0); 3];
    let mut square = [Gray(1); 64];
    let mut table = [Gray(0); 66];
    let mut tiles = Tiles::new(3, 1, &mut square);
    middles(
        &rt,
        Rows::new(3, &mut cells),
        &mut tiles,
        row,
        &mut table,
        mid,
        closed,
    )?;
    let mut rows = Rows::new(3, &mut cells);
    middles(
        &rt,
        Tiles::new(3, 1, &mut square),
        &mut rows,
        row,
        &mut table,
        mid,
        closed,
    )
}

// Between -1 and 0, the midway is -1; between -7 and -4, it is -6.
#[test]
fn a_mid_of_negative_heights_rounds_down(rt: HostRuntime) -> Result<(), Fail> {
    let mut cells = [Height(0); 3];
    let mut others = [Height(5); 3];
    let mut table = [Height(0); 66];
    middles(
        &rt,
        Rows::new(3, &mut cells),
        &mut Rows::new(3, &mut others),
        [Height(0), Height(-1), Height(0)],
        &mut table,
        [Height(-1), Height(-1), Height(0)],
        [Height(0), Height(0), Height(0)],
    )?;
    middles(
        &rt,
        Rows::new(3, &mut cells),
        &mut Rows::new(3, &mut others),
        [Height(-4), Height(-7), Height(-2)],
        &mut table,
        [Height(-6), Height(-6), Height(-2)],
        [Height(-4), Height(-4), Height(-2)],
    )
}

// The opening of one cell beside its mask is 0, the closing 255.
#[test]
fn a_mid_of_one_cell_is_between_the_ends(rt: HostRuntime) -> Result<(), Fail> {
    let mut cells = [Gray(7)];
    let mut others = [Gray(9)];
    let mut sheet = Worksheet::new(Rows::new(1, &mut cells));
    sheet.lay(Mask::from_points(&[Point { u: 1, v: 0 }])?);
    let mut second = Rows::new(1, &mut others);
    assert_eq!(rt; sheet.mid(&mut second, &mut [Gray(0); 31]), Ok(0));
    assert_eq!(rt; cells, [Gray(127)]);
    assert_eq!(rt; others, [Gray(255)]);
    Ok(())
}

#[test]
fn a_refused_mid_changes_neither_sheet(rt: HostRuntime) -> Result<(), Fail> {
    let mut cells = [Gray(7), Gray(9), Gray(4)];
    let mut others = [Gray(1); 4];
    let mut table = [Gray(3); 66];
    let mut sheet = Worksheet::new(Rows::new(3, &mut cells));
    let mut second = Rows::new(4, &mut others);
    assert_eq!(rt; sheet.mid(&mut second, &mut table), Err(Refusal::NoMask));
    sheet.lay(pair()?);
    assert_eq!(rt;
        sheet.mid(&mut second, &mut table[0..65]),
        Err(Refusal::ShortTable {
            needed: 66,
            lent: 65
        })
    );
    let three = Size {
        width: 3,
        height: 1,
    };
    let four = Size {
        width: 4,
        height: 1,
    };
    let unlike = Refusal::UnlikeSizes {
        first: three,
        second: four,
    };
    assert_eq!(rt; sheet.mid(&mut second, &mut table), Err(unlike));
    assert_eq!(rt; unlike.number(), 12);
    assert_eq!(rt; cells, [Gray(7), Gray(9), Gray(4)]);
    assert_eq!(rt; others, [Gray(1); 4]);
    assert_eq!(rt; table[0], Gray(3));
    Ok(())
}
