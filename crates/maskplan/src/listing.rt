// The plan as text.
use crate::plan;
use drawings::drawing::Drawing;
use drawings::picture::picture_row;
use masks::chord::ChordList;
use masks::lengths::LengthList;
use masks::mask::Mask;
use sheets::holder::Size;
use std::io;

// What is planned, and where to the plan is printed.
#[derive(Clone, Copy)]
pub struct Listing<'a> {
    pub rt: &'a HostRuntime,
    pub drawing: &'a Drawing,
    pub mask: &'a Mask,
    pub size: Size,
}

impl Listing<'_> {
    // Prints each step of the plan. Want of memory for a row of the picture is told as a plan that cannot be written.
    pub fn print(&self) -> io::Result<()> {
        println!(self.rt; "sheet {} by {}", self.size.width, self.size.height)?;
        self.print_points()?;
        self.print_picture()?;
        self.print_chords()?;
        self.print_lengths()?;
        self.print_costs()
    }

    // The points as they were drawn.
    fn print_points(&self) -> io::Result<()> {
        println!(self.rt; "points {}", self.mask.count())?;
        for p in self.drawing.points() {
            println!(self.rt; "  ({}, {})", p.u, p.v)?;
        }
        Ok(())
    }

    // The smallest rectangle that has every point and the origin.
    fn print_picture(&self) -> io::Result<()> {
        let alloc = self.rt.alloc();
        let points = self.drawing.points();
        let (north, south) = ChordList::of(self.mask).extent();
        let west = points.iter().fold(0, |least, p| p.u.min(least));
        let east = points.iter().fold(0, |most, p| p.u.max(most));
        let columns: Vec<i32> = (west..east.saturating_add(1)).collect(alloc)?;
        println!(self.rt; "mask")?;
        for v in north..south.saturating_add(1) {
            let row = picture_row(alloc, self.mask, v, columns.as_slice())?;
            println!(self.rt; "  {row}")?;
        }
        Ok(())
    }

    // The chords of the mask, from which the sweep takes it.
    fn print_chords(&self) -> io::Result<()> {
        let chords = ChordList::of(self.mask);
        let count = chords.as_slice().len();
        println!(self.rt; "chords {count}")?;
        for c in chords.as_slice() {
            println!(self.rt; "  row {}, from {}, {} long", c.v, c.start, c.length)?;
        }
        Ok(())
    }

    // The lengths for which the table has cells.
    fn print_lengths(&self) -> io::Result<()> {
        print!(self.rt; "lengths")?;
        for length in LengthList::of(self.mask).as_slice() {
            print!(self.rt; " {length}")?;
        }
        println!(self.rt)
    }

    // What filters under the mask cost on the sheet.
    fn print_costs(&self) -> io::Result<()> {
        let costs = plan::priced(self.mask, self.size);
        println!(self.rt; "rows {}", costs.rows)?;
        println!(self.rt; "table {} cells", costs.table)?;
        println!(self.rt; "erode or dilate {} picks", costs.filter)?;
        println!(self.rt; "open or close {} picks", costs.opening)
    }
}
