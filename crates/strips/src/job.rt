// A job, read from its strip.
ghost use Rattle.std.specs.Prelude.{◌≡◌, ◌+◌, ◌^◌, ◌<◌, length, IfSome};
ghost use Rattle.std.specs.List.{slice_get};
ghost use Rattle.std.proofs.Props.{props};
ghost use Rattle.strips.specs.Words.{numbers};
ghost use Rattle.strips.specs.Jobs.{first_step, step_of, step_place};

use crate::item::Item;
use crate::kind::CellKind;
use crate::parts::{PointFields, Shape, Step};
use crate::words::word_at;
use sheets::window::Rectangle;

// An accepted strip: the parts of the job, the words of which are lent.
#[derive(Clone, Copy)]
pub struct JobStrip<'a> {
    pub(crate) shape: Shape,
    // The raw words of the cells, row by row.
    pub(crate) raws: &'a [[u8; 4]],
    pub(crate) window: Option<Rectangle>,
    // The words of the steps.
    pub(crate) steps: &'a [[u8; 4]],
    ghost within: { IfSome window (λ r. (r.left < 2 ^ 32) × (r.top < 2 ^ 32) × (r.size.width < 2 ^ 32) × (r.size.height < 2 ^ 32)) } by { Prim.hlevel props },
}

impl JobStrip<'_> {
    ghost use Rattle.strips.specs.Views.{job_of, steps_left};

    // The kind of cell of the sheet.
    pub fn kind(&self) -> CellKind
        ensures { result ≡ (job_of self.now).kind }
    {
        self.shape.kind
    }

    // The width of the sheet.
    pub fn width(&self) -> u32
        ensures { result ≡ (job_of self.now).width }
    {
        self.shape.width
    }

    // The height of the sheet.
    pub fn height(&self) -> u32
        ensures { result ≡ (job_of self.now).height }
    {
        self.shape.height
    }

    // The raw words of the cells, row by row, the highest byte of each first.
    pub fn raws(&self) -> &[[u8; 4]]
        ensures { numbers result.now ≡ (job_of self.now).raws }
    {
        self.raws
    }

    // The raw word of the i-th cell, row by row.
    pub fn raw(&self, i: usize) -> Option<u32>
        ensures { result ≡ slice_get (job_of self.now).raws i }
    {
        word_at(self.raws, i)
    }

    // The window of the sheet, if there is one.
    pub fn window(&self) -> Option<Rectangle>
        ensures answer { result ≡ (job_of self.now).window }
        ensures within { IfSome result (λ r. (r.left < 2 ^ 32) × (r.top < 2 ^ 32) × (r.size.width < 2 ^ 32) × (r.size.height < 2 ^ 32)) }
    {
        self.window
    }

    // How many steps there are.
    pub fn steps(&self) -> usize
        ensures answer { result ≡ length (job_of self.now).steps }
        ensures within { first_step (job_of self.now) + result < 2 ^ 63 }
    {
        self.steps.len()
    }

    // The i-th step.
    pub fn step(&self, i: usize) -> Option<Step>
        ensures { result ≡ slice_get (job_of self.now).steps i }
    {
        word_at(self.steps, i).map(step_of)
    }

    // The steps, one after the other.
    pub fn each_step(&self) -> Steps<'_>
        ensures { steps_left result ≡ (job_of self.now).steps }
    {
        Steps { words: self.steps }
    }

    // The number of the word that is the first step, or the end word if there is none.
    pub fn first_step(&self) -> usize
        ensures answer { result ≡ first_step (job_of self.now) }
        ensures within { result + length (job_of self.now).steps < 2 ^ 63 }
    {
        // The head and the cells word, the raw words, and the two words of a window stand before it.
        2 + self.raws.len() + self.window.map_or(0, |_| 2)
    }

    // The number of the word that is the i-th step.
    pub fn step_place(&self, i: usize) -> Option<usize>
        ensures { result ≡ step_place (first_step (job_of self.now)) (length (job_of self.now).steps) i }
    {
        let first = self.first_step();
        (i < self.steps.len()).then(|| first + i)
    }
}

// The steps of a job, of which those that were given are gone.
#[derive(Clone, Copy)]
pub struct Steps<'a> {
    words: &'a [[u8; 4]],
}

impl Iterator for Steps<'_> {
    ghost use Rattle.std.specs.Iterator.{YieldsFirst, item_count};
    ghost use Rattle.strips.specs.Views.{steps_left};

    type Item = Step;

    ghost next_gives = { YieldsFirst steps_left };

    ghost remaining = { item_count steps_left };

    fn next(&mut self) -> Option<Step> {
        let (first, rest) = self.words.split_first()?;
        self.words = rest;
        Some(step_of(u32::from_be_bytes(*first)))
    }
}

// The step that a word is.
fn step_of(word: u32) -> Step
    ensures { result ≡ step_of word }
{
    match Item::try_from(word) {
        Ok(Item::Point(fields)) => Step::Point(fields),
        Ok(Item::Call(filter)) => Step::Call(filter),
        _ => Step::Point(PointFields { u: 0, v: 0 }),
    }
}
