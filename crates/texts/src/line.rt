// The lines of a job, each with its number.
ghost use Rattle.std.specs.Prelude.{◌≡◌, map, IfOk, string_bytes};
ghost use Rattle.texts.specs.Lines.{told, numbered_from, shown, lines_before, drawn_from};
ghost use Rattle.texts.specs.Settings.{IsAlone};
ghost use Rattle.texts.specs.Views.{drawn_in};

use crate::view::Lines;
use std::alloc::{AllocError, Global};
use std::str::FromStr;

// A line and its number in the job, from 1.
#[derive(Clone, Copy)]
pub struct Line<'a> {
    pub number: usize,
    pub text: &'a str,
}

// The lines of a job, listed.
pub fn numbered<'a>(alloc: Global, lines: &'a [String]) -> Result<Vec<Line<'a>>, AllocError>
    ensures { IfOk result (λ v. map told v.items ≡ numbered_from 1 (map string_bytes lines.now)) }
{
    let view = Lines::of(lines);
    let mut numbered = Vec::new(alloc);
    // By number, since lines are a view of their texts.
    for i in 0..view.len() {
        numbered.push(view.at(i))?;
    }
    Ok(numbered)
}

// The lines, with a blank one for each line before the first, so that what is drawn in lines that follow each other is told by
// the lines of the job.
pub fn drawn_lines(alloc: Global, lines: &[Line]) -> Result<Vec<String>, AllocError>
    ensures { IfOk result (λ v. map string_bytes v.items ≡ drawn_from lines.now) }
{
    let mut drawn = Vec::new(alloc);
    for _before in 0..lines_before(lines) {
        drawn.push(String::new(alloc))?;
    }
    for line in lines {
        drawn.push(String::from_str(alloc, line.text)?)?;
    }
    Ok(drawn)
}

// How many lines of the job stand before these.
fn lines_before(lines: &[Line]) -> usize
    ensures { result ≡ lines_before lines.now }
{
    lines
        .first()
        .map_or(0, |line| line.number.saturating_sub(1))
}

// The same of the lines that a view shows; they follow each other.
pub fn drawn_lines_in(alloc: Global, lines: Lines) -> Result<Vec<String>, AllocError>
    ensures { IfOk result (λ v. map string_bytes v.items ≡ drawn_in (shown lines.entry)) }
{
    let mut drawn = Vec::new(alloc);
    for _before in 0..lines.before() {
        drawn.push(String::new(alloc))?;
    }
    // By number, since lines are a view of their texts.
    for i in 0..lines.len() {
        drawn.push(String::from_str(alloc, lines.at(i).text)?)?;
    }
    Ok(drawn)
}

impl Line<'_> {
    ghost use Rattle.texts.specs.Settings.{Valued};

    // The value of a setting, where its word is followed by one word more and that is a value.
    pub fn value<T: FromStr>(self) -> Option<T>
    where
        T::Err: Drop,
        ensures { Valued T.FromStr.from_str_gives self.entry.text.now result }
    {
        match alone(self.text) {
            Some(word) => word.parse::<T>().ok(),
            None => None,
        }
    }
}

// The word behind the first of a line, where no other follows.
fn alone(text: &str) -> Option<&str>
    ensures { IsAlone text.now result }
{
    let mut words = text.split_whitespace();
    let first = words.next();
    let second = words.next();
    let third = words.next();
    if first.is_some() && third.is_none() {
        second
    } else {
        None
    }
}
