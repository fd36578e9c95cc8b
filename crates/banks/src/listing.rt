// A job, run and listed step by step.
use crate::job::Job;
use cells::height::Height;
use filters::find::find;
use masks::cost;
use masks::mask::Mask;
use morphology::call::Answer;
use morphology::place::Place;
use sheets::rows::Rows;
use std::alloc::AllocError;
use std::io;
use texts::fault::JobFault;
use texts::told::{ToldAnswer, ToldRefusal, ToldRows};
use worksheets::worksheet::Worksheet;

// What is run and listed, and where to.
#[derive(Clone, Copy)]
pub struct Listing<'a> {
    pub rt: &'a HostRuntime,
    pub job: &'a Job,
}

impl Listing<'_> {
    // Lists the mid of the heights under the mask, with the closing beside it, and then the hits of the heights as they
    // were loaded.
    pub fn print(&self) -> Result<(), JobFault> {
        println!(self.rt; "sheet {} by {}", self.job.size.width, self.job.size.height)?;
        self.print_mid()?;
        self.print_find()
    }

    // The mid, and the closing that the second holder receives.
    fn print_mid(&self) -> Result<(), JobFault> {
        let width = self.job.size.width;
        let mut cells = self.job.cells.clone()?;
        let mut closed = self.job.cells.clone()?;
        let mut table = self.table_for(&self.job.mask)?;
        let mut sheet = Worksheet::new(Rows::new(width, cells.as_mut_slice()));
        let mut second = Rows::new(width, closed.as_mut_slice());
        sheet.lay(self.job.mask);
        let answer = Answer::from(sheet.mid(&mut second, table.as_mut_slice()));
        println!(self.rt)?;
        println!(self.rt;
            "mid, mask of points {}: {}",
            self.job.mask.count(),
            ToldAnswer(answer)
        )?;
        self.rt.print(ToldRows {
            width,
            cells: cells.as_slice(),
        })?;
        println!(self.rt; "the closing")?;
        self.rt.print(ToldRows {
            width,
            cells: closed.as_slice(),
        })?;
        Ok(())
    }

    // The hits, and those of them that the list has places for.
    fn print_find(&self) -> Result<(), JobFault> {
        let alloc = self.rt.alloc();
        let mut cells = self.job.cells.clone()?;
        let mut fore_table = self.table_for(&self.job.fore)?;
        let mut back_table = self.table_for(&self.job.back)?;
        let mut places = vec![in alloc; Place { x: 0, y: 0 }; self.job.places]?;
        let answer = find(
            &Rows::new(self.job.size.width, cells.as_mut_slice()),
            &self.job.fore,
            &self.job.back,
            fore_table.as_mut_slice(),
            back_table.as_mut_slice(),
            places.as_mut_slice(),
        );
        println!(self.rt)?;
        print!(self.rt;
            "find, fore mask of points {}, back mask of points {}: ",
            self.job.fore.count(),
            self.job.back.count()
        )?;
        match answer {
            Ok((hits, picks)) => {
                println!(self.rt; "{hits} hits, {picks} picks")?;
                self.print_places(places.as_slice(), hits)?;
            }
            Err(refusal) => println!(self.rt; "{}", ToldRefusal(refusal))?,
        }
        Ok(())
    }

    // A table that is just as long as a filter under the mask needs.
    fn table_for(&self, mask: &Mask) -> Result<Vec<Height>, AllocError> {
        let alloc = self.rt.alloc();
        let cells = cost::table_cells(mask, self.job.size.width as u64) as usize;
        vec![in alloc; Height(0); cells]
    }

    // The hits at the front of the list, and how many more there are.
    fn print_places(&self, places: &[Place], hits: usize) -> io::Result<()> {
        for place in places.iter().take(hits) {
            println!(self.rt; "  ({}, {})", place.x, place.y)?;
        }
        let more = hits.saturating_sub(places.len());
        println!(self.rt; "hits that the list has no place for: {more}")
    }
}
