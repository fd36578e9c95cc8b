// A strip that is being read, word by word.
ghost use Rattle.std.specs.Prelude.{◌≡◌, ◌+◌, ◌^◌, ◌<◌, length, take, IfOk, IfSome, ◌==◌};
ghost use Rattle.strips.specs.Words.{kind, numbers};
ghost use Rattle.strips.specs.Reading.{cell_of, shape_of, count_of, corner_of, extent_of, is_step};

use crate::fault::{Ground, StripFault};
use crate::item::Item;
use crate::kind::CellKind;
use crate::parts::Shape;
use crate::words::kind;
use sheets::holder::Size;
use sheets::window::Rectangle;

// What is left of a strip: its words, and the number of the first of them.
#[derive(Drop)]
pub(crate) struct Strip<'a> {
    pub(crate) words: &'a [[u8; 4]],
    pub(crate) place: usize,
    ghost within: { place + length words.now < 2 ^ 63 },
}

impl<'a> Strip<'a> {
    ghost use Rattle.strips.specs.Reading.{word_due, item_due, shape_due, count_due, cell_due, raws_due, frame_due, begins, window_due, step_due, steps_due, ended};
    ghost use Rattle.strips.specs.Views.{left, Gives, GivesAs, Passes};

    // Takes the next word.
    fn word(&mut self) -> Result<Placed<u32>, StripFault>
        ensures word { GivesAs (λ w. w.said) word_due self.old self.new result }
        ensures place { IfOk result (λ w. w.place ≡ self.old.place) }
    {
        let place = self.place;
        let (word, rest) = self
            .words
            .split_first()
            .ok_or(StripFault::At(Ground::CutShort, place))?;
        self.words = rest;
        self.place += 1;
        let said = u32::from_be_bytes(*word);
        Ok(Placed { said, place })
    }

    // Takes what the next word says.
    #[tactic(auto, unfolding(crate::specs::Reading::item_due))]
    fn item(&mut self) -> Result<Placed<Item>, StripFault>
        ensures item { GivesAs (λ x. x.said) item_due self.old self.new result }
        ensures place { IfOk result (λ x. x.place ≡ self.old.place) }
    {
        let Placed { said, place } = self.word()?;
        let said = Item::try_from(said).map_err(|_| StripFault::At(Ground::NoWord, place))?;
        Ok(Placed { said, place })
    }

    // Takes the head.
    #[tactic(auto, unfolding(crate::specs::Reading::shape_due))]
    pub(crate) fn shape(&mut self) -> Result<Shape, StripFault>
        ensures answer { Gives shape_due self.old self.new result }
        ensures within { IfOk result (λ s. s.width < 2 ^ 12 × s.height < 2 ^ 12) }
    {
        self.item()?.shape()
    }

    // Takes the cells word, which says that so many raw words follow.
    #[tactic(auto, unfolding(crate::specs::Reading::count_due))]
    pub(crate) fn count(&mut self, cells: u32) -> Result<u32, StripFault>
        ensures { Gives (count_due cells) self.old self.new result }
    {
        self.item()?.count(cells)
    }

    // Takes a raw word, a cell of that kind.
    #[tactic(auto, unfolding(crate::specs::Reading::cell_due))]
    fn cell(&mut self, kind: CellKind) -> Result<u32, StripFault>
        ensures { Gives (cell_due kind) self.old self.new result }
    {
        self.word()?.cell(kind)
    }

    // Takes n raw words, cells of that kind.
    pub(crate) fn raws(&mut self, kind: CellKind, n: u32) -> Result<&'a [[u8; 4]], StripFault>
        ensures passed { Passes (raws_due kind n) self.old self.new result }
        ensures words { IfOk result (λ r. numbers r.now ≡ take n (left self.old).words) }
    {
        let all = self.words;
        for _ in 0..n {
            self.cell(kind)?;
        }
        Ok(&all[..n as usize])
    }

    // Takes the corner and the extent of a window.
    #[tactic(auto, unfolding(crate::specs::Reading::frame_due))]
    fn frame(&mut self) -> Result<Rectangle, StripFault>
        ensures answer { Gives frame_due self.old self.new result }
        ensures within { IfOk result (λ r. (r.left < 2 ^ 32) × (r.top < 2 ^ 32) × (r.size.width < 2 ^ 32) × (r.size.height < 2 ^ 32)) }
    {
        let (column, row) = self.item()?.corner()?;
        let (width, height) = self.item()?.extent()?;
        Ok(Rectangle {
            left: column as usize,
            top: row as usize,
            size: Size {
                width: width as usize,
                height: height as usize,
            },
        })
    }

    // Whether a corner stands there.
    fn begins(&self) -> bool
        ensures { result ≡ begins (left self.now).words }
    {
        self.words
            .first()
            .is_some_and(|word| is_corner(u32::from_be_bytes(*word)))
    }

    // Takes the window, if a corner stands there.
    #[tactic(auto, unfolding(crate::specs::Reading::window_due))]
    pub(crate) fn window(&mut self) -> Result<Option<Rectangle>, StripFault>
        ensures answer { Gives window_due self.old self.new result }
        ensures within { IfOk result (λ w. IfSome w (λ r. (r.left < 2 ^ 32) × (r.top < 2 ^ 32) × (r.size.width < 2 ^ 32) × (r.size.height < 2 ^ 32))) }
    {
        if self.begins() {
            self.frame().map(Some)
        } else {
            Ok(None)
        }
    }

    // Takes a step, or the end; which of them it was.
    #[tactic(auto, unfolding(crate::specs::Reading::step_due))]
    fn step(&mut self) -> Result<bool, StripFault>
        ensures { Gives step_due self.old self.new result }
    {
        self.item()?.is_step()
    }

    // Takes the steps and the end word.
    pub(crate) fn steps(&mut self) -> Result<&'a [[u8; 4]], StripFault>
        ensures count { GivesAs (λ r. length r.now) steps_due self.old self.new result }
        ensures words { IfOk result (λ r. numbers r.now ≡ take (length r.now) (left self.old).words) }
    {
        let all = self.words;
        while self.step()? {}
        // All words taken are steps, but for the end.
        Ok(&all[..all.len() - self.words.len() - 1])
    }

    // Whether nothing is left, not even one of these bytes that are no whole word.
    pub(crate) fn ended(&self, over: &[u8]) -> Result<(), StripFault>
        ensures { Passes (ended (length over.now)) self.now self.now result }
    {
        if self.words.is_empty() && over.is_empty() {
            Ok(())
        } else {
            Err(StripFault::At(Ground::OutOfOrder, self.place))
        }
    }
}

// Whether the word has the kind of a corner. A name for its number, in item_by too, would be one among six without.
fn is_corner(word: u32) -> bool
    ensures { result ≡ (kind word == 3) }
{
    kind(word) == 3
}

// A word, or what it says, with the number of the word.
#[derive(Clone, Copy)]
struct Placed<T> {
    said: T,
    place: usize,
}

impl Placed<u32> {
    // The word itself, if it is a cell of that kind.
    fn cell(self, kind: CellKind) -> Result<u32, StripFault>
        ensures { result ≡ cell_of kind self.place self.said }
    {
        let Placed { said, place } = self;
        kind.has(said)
            .then_some(said)
            .ok_or(StripFault::At(Ground::NoCell, place))
    }
}

impl Placed<Item> {
    // The head's kind, width and height.
    fn shape(self) -> Result<Shape, StripFault>
        ensures { result ≡ shape_of self.place self.said }
    {
        let Item::Head {
            kind,
            width,
            height,
        } = self.said
        else {
            return Err(StripFault::At(Ground::OutOfOrder, self.place));
        };
        let kind = kind.map_err(|_| StripFault::At(Ground::NoKind, self.place))?;
        Ok(Shape {
            kind,
            width,
            height,
        })
    }

    // The count of the cells word, if it is that number.
    fn count(self, cells: u32) -> Result<u32, StripFault>
        ensures { result ≡ count_of cells self.place self.said }
    {
        match self.said {
            Item::Cells(count) if count == cells => Ok(cells),
            Item::Cells(_) => Err(StripFault::At(Ground::WrongCount, self.place)),
            _ => Err(StripFault::At(Ground::OutOfOrder, self.place)),
        }
    }

    // The column and the row of a corner.
    fn corner(self) -> Result<(u32, u32), StripFault>
        ensures { result ≡ corner_of self.place self.said }
    {
        match self.said {
            Item::Corner { column, row } => Ok((column, row)),
            _ => Err(StripFault::At(Ground::OutOfOrder, self.place)),
        }
    }

    // The width and the height of an extent.
    fn extent(self) -> Result<(u32, u32), StripFault>
        ensures { result ≡ extent_of self.place self.said }
    {
        match self.said {
            Item::Extent { width, height } => Ok((width, height)),
            _ => Err(StripFault::At(Ground::OutOfOrder, self.place)),
        }
    }

    // Whether it is a step; the end is none.
    fn is_step(self) -> Result<bool, StripFault>
        ensures { result ≡ is_step self.place self.said }
    {
        match self.said {
            Item::Point(_) | Item::Call(_) => Ok(true),
            Item::End => Ok(false),
            _ => Err(StripFault::At(Ground::OutOfOrder, self.place)),
        }
    }
}
