// What a word with a kind says.
ghost use Rattle.std.specs.Prelude.{◌≡◌, ◌<◌, ◌^◌, Some, ok_or};
ghost use Rattle.std.specs.Option.{option_map};
ghost use Rattle.strips.specs.Items.{filter_of, head_item, pair, point_item, end_item, item_by, item_of};
ghost use Rattle.strips.specs.declared.item.Item.TheVariants.{Point};

use crate::kind::{CellKind, NoSuchKind};
use crate::parts::PointFields;
use crate::words::kind;
use morphology::call::Filter;

// What a word says, by its kind.
#[derive(Clone, Copy, PartialEq, Eq, Debug)]
pub enum Item {
    // The kind of cell, or its number where no kind has it, and the size of the sheet.
    Head {
        kind: Result<CellKind, NoSuchKind>,
        width: u32,
        height: u32,
    },
    // So many cell words follow.
    Cells(u32),
    // Where a window begins.
    Corner {
        column: u32,
        row: u32,
    },
    // The size of the window.
    Extent {
        width: u32,
        height: u32,
    },
    // A point of a mask.
    Point(PointFields),
    // A filter under the mask.
    Call(Filter),
    // Nothing follows.
    End,
}

// A word that says nothing: its kind is not 1 to 7, its call not 1 to 4, or an unused bit is set.
#[derive(Clone, Copy, PartialEq, Eq, Debug)]
pub struct SaysNothing(pub u32);

// The number of a call.
#[derive(Clone, Copy, PartialEq, Eq, Debug)]
pub struct CallNumber(pub u32);

// A number that no call has.
#[derive(Clone, Copy, PartialEq, Eq, Debug)]
pub struct NoSuchCall(pub u32);

// The filter that is called by that number, if there is one.
impl TryFrom<CallNumber> for Filter {
    type Error = NoSuchCall;

    ghost try_from_gives = { λ n r. r ≡ ok_or (filter_of n.0) (record { 0 = n.0 }) };

    fn try_from(number: CallNumber) -> Result<Filter, NoSuchCall> {
        match number.0 {
            1 => Ok(Filter::Erode),
            2 => Ok(Filter::Dilate),
            3 => Ok(Filter::Open),
            4 => Ok(Filter::Close),
            n => Err(NoSuchCall(n)),
        }
    }
}

impl TryFrom<u32> for Item {
    type Error = SaysNothing;

    ghost try_from_gives = { λ w r. r ≡ ok_or (item_of w) (record { 0 = w }) };

    #[tactic(auto, unfolding(crate::specs::Items::item_of))]
    fn try_from(word: u32) -> Result<Item, SaysNothing> {
        item_by(kind(word), word % 0x1000_0000).ok_or(SaysNothing(word))
    }
}

// What the body says in a word of that kind.
fn item_by(kind: u32, body: u32) -> Option<Item>
    requires { body < 2 ^ 28 }
    ensures { result ≡ item_by kind body }
{
    match kind {
        1 => Some(head(body)),
        2 => Some(Item::Cells(body)),
        3 => pair(body).map(|(column, row)| Item::Corner { column, row }),
        4 => pair(body).map(|(width, height)| Item::Extent { width, height }),
        5 => point(body).map(Item::Point),
        6 => Filter::try_from(CallNumber(body)).ok().map(Item::Call),
        7 => end(body),
        _ => None,
    }
}

// Bits 27 to 24 are the kind of cell, 23 to 12 the width, 11 to 0 the height.
fn head(body: u32) -> Item
    requires { body < 2 ^ 28 }
    ensures { Some result ≡ head_item body }
{
    Item::Head {
        kind: CellKind::try_from((body / 0x100_0000) as u8),
        width: body / 0x1000 % 0x1000,
        height: body % 0x1000,
    }
}

// The numbers in bits 23 to 12 and 11 to 0; the others are 0.
fn pair(body: u32) -> Option<(u32, u32)>
    ensures { result ≡ pair body }
{
    (body < 0x100_0000).then_some((body / 0x1000, body % 0x1000))
}

// Bits 9 to 5 are u + 15, 4 to 0 are v + 15, and the others are 0.
fn point(body: u32) -> Option<PointFields>
    ensures { option_map Point result ≡ point_item body }
{
    (body < 0x400).then(|| PointFields {
        u: (body / 0x20) as u8,
        v: (body % 0x20) as u8,
    })
}

// The body is 0.
fn end(body: u32) -> Option<Item>
    ensures { result ≡ end_item body }
{
    (body == 0).then_some(Item::End)
}
