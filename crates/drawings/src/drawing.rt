// A drawing: the points that it draws, or what is wrong with it.
ghost use Rattle.std.specs.Prelude.{◌≡◌, true, ◌++◌, map, is_ok, IfOk, Some, string_bytes};
ghost use Rattle.drawings.specs.declared.drawing.DrawingFault.TheVariants.{Memory};
ghost use Rattle.drawings.specs.Signs.{blank, is_sign, is_point, is_origin, line_marks, marks};
ghost use Rattle.drawings.specs.Readings.{origin_of, point_marks, point_of, offset, origin_read, place_at, Reads};
ghost use Rattle.drawings.specs.Told.{place_text, reading_text};

use masks::point::Point;
use std::alloc::{AllocError, Global};
use std::fmt;

// Where a character stands; lines and columns count from 1.
#[derive(Clone, Copy, PartialEq, Eq, Debug)]
pub struct Place {
    pub line: usize,
    pub column: usize,
}

// A character of the drawing.
#[derive(Clone, Copy)]
pub struct Mark {
    pub place: Place,
    // A byte: with an enum of the four signs, each definition of marks would be a Result, for a character that is none.
    pub sign: u8,
}

// What is wrong with a drawing.
#[derive(Clone, Copy, PartialEq, Eq, Debug)]
pub enum DrawingFault {
    // A character that is none of the four signs, the first such.
    OtherCharacter(Place),
    // The origin is not marked.
    NoOrigin,
    // The origin is marked again.
    SecondOrigin(Place),
    // There was no memory to read it; this says nothing of the drawing.
    Memory,
}

impl fmt::Display for Place {
    ghost output = { λ p. Some (place_text p) };

    fn fmt<W: fmt::Write>(&self, f: &mut fmt::Formatter<W>) -> fmt::Result {
        write!(f, "line {} column {}", self.line, self.column)
    }
}

impl fmt::Display for DrawingFault {
    ghost output = { λ f. Some (reading_text f) };

    fn fmt<W: fmt::Write>(&self, f: &mut fmt::Formatter<W>) -> fmt::Result {
        match self {
            DrawingFault::OtherCharacter(place) => {
                write!(f, "{place}: a drawing has only # . @ and o")
            }
            DrawingFault::NoOrigin => write!(
                f,
                "the origin is not marked, @ where it is a point and o where it is not"
            ),
            DrawingFault::SecondOrigin(place) => {
                write!(f, "{place}: the origin is marked a second time")
            }
            DrawingFault::Memory => write!(f, "there is not enough memory"),
        }
    }
}

// `?` converts but once, so that each fault takes in want of memory by itself.
impl From<AllocError> for DrawingFault {
    ghost from_gives = { λ _ r. r ≡ Memory };

    fn from(_e: AllocError) -> DrawingFault {
        DrawingFault::Memory
    }
}

// A drawing that was read: its points in reading order, and where each was drawn. They are two lists, since a mask is made
// from a lent slice of points.
#[derive(Drop)]
pub struct Drawing {
    dots: Vec<Mark>,
    points: Vec<Point>,
}

impl Drawing {
    // Reads the lines of a drawing.
    pub fn read(heap: Global, lines: &[String]) -> Result<Drawing, DrawingFault>
        ensures { Reads (marks 1 (map string_bytes lines.now)) result }
    {
        let all = all_marks(heap, lines)?;
        let origin = origin_read(all.as_slice())?;
        let dots = point_marks(heap, all.as_slice())?;
        let points = points_from(heap, dots.as_slice(), origin)?;
        Ok(Drawing { dots, points })
    }

    // The points, in reading order.
    pub fn points(&self) -> &[Point]
        ensures { result.now ≡ self.now.points.items }
    {
        self.points.as_slice()
    }

    // Where the point at this place of the list was drawn.
    pub fn place(&self, i: usize) -> Option<Place>
        ensures { result ≡ place_at self.now i }
    {
        self.dots.get(i).map(|m| m.place)
    }
}

// The place of the origin, or what is wrong with the marks.
fn origin_read(marks: &[Mark]) -> Result<Place, DrawingFault>
    ensures { result ≡ origin_read marks.now }
{
    if let Some(other) = marks.iter().find(|m| !is_sign(m.sign)) {
        return Err(DrawingFault::OtherCharacter(other.place));
    }
    origin_of(marks)
}

// The place of the one mark of the origin.
fn origin_of(marks: &[Mark]) -> Result<Place, DrawingFault>
    ensures { result ≡ origin_of marks.now }
{
    let mut found = None;
    for m in marks {
        if is_origin(m.sign) {
            if found.is_some() {
                return Err(DrawingFault::SecondOrigin(m.place));
            }
            found = Some(m.place);
        }
    }
    found.ok_or(DrawingFault::NoOrigin)
}

// The marks that are points.
fn point_marks(heap: Global, marks: &[Mark]) -> Result<Vec<Mark>, AllocError>
    ensures { IfOk result (λ v. v.items ≡ point_marks marks.now) }
{
    marks
        .iter()
        .copied()
        .filter(|m| is_point(m.sign))
        .collect(heap)
}

// The points that the marks are, seen from the origin.
fn points_from(heap: Global, dots: &[Mark], origin: Place) -> Result<Vec<Point>, AllocError>
    ensures { IfOk result (λ v. v.items ≡ map (λ m. point_of origin m.place) dots.now) }
{
    dots.iter().map(|m| point_of(origin, m.place)).collect(heap)
}

// The point at a place, seen from the origin's place.
fn point_of(origin: Place, place: Place) -> Point
    ensures { result ≡ point_of origin place }
{
    Point {
        u: offset(origin.column, place.column),
        v: offset(origin.line, place.line),
    }
}

// How far it is from one number to another; what 32 bits do not hold counts as the farthest that they do.
fn offset(from: usize, to: usize) -> i32
    ensures { result ≡ offset from to }
{
    if from <= to {
        i32::try_from(to - from).unwrap_or(i32::MAX)
    } else {
        i32::try_from(from - to).map_or(i32::MIN, |behind| -behind)
    }
}

// Whether a line has nothing but blanks.
fn is_blank(text: &[u8]) -> bool
    ensures { result ≡ blank text.now }
{
    text.iter().all(|b| *b == b' ')
}

// Puts the marks of one line behind those that are there.
fn add_line(marks: &mut Vec<Mark>, line: usize, text: &[u8]) -> Result<(), AllocError>
    ensures { is_ok result ≡ true → marks.new.items ≡ marks.old.items ++ line_marks line text.now }
{
    if is_blank(text) {
        return Ok(());
    }
    for (i, b) in text.iter().enumerate() {
        marks.push(Mark {
            place: Place {
                line,
                column: i + 1,
            },
            sign: *b,
        })?;
    }
    Ok(())
}

// The marks of the lines, in reading order.
fn all_marks(heap: Global, lines: &[String]) -> Result<Vec<Mark>, AllocError>
    ensures { IfOk result (λ v. v.items ≡ marks 1 (map string_bytes lines.now)) }
{
    let mut all = Vec::new(heap);
    for (i, line) in lines.iter().enumerate() {
        add_line(&mut all, i + 1, line.as_bytes())?;
    }
    Ok(all)
}

// Whether a character is one of the four signs.
fn is_sign(b: u8) -> bool
    ensures { result ≡ is_sign b }
{
    is_point(b) || is_origin(b) || b == b'.'
}

// Whether a character stands for a point.
fn is_point(b: u8) -> bool
    ensures { result ≡ is_point b }
{
    b == b'#' || b == b'@'
}

// Whether a character marks the origin.
fn is_origin(b: u8) -> bool
    ensures { result ≡ is_origin b }
{
    b == b'@' || b == b'o'
}
