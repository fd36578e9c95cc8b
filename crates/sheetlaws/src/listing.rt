// The report as text.
use crate::album::{Album, Picture};
use crate::job::Job;
use crate::names::{Reason, SheetName};
use crate::report::{Family, Report, Shown, Step};
use morphology::call::{Answer, Filter};
use std::io;
use texts::told::{ToldAnswer, ToldRows};

// What is printed of a job and its report, and where to.
#[derive(Clone, Copy)]
pub struct Listing<'a> {
    pub rt: &'a HostRuntime,
    pub job: &'a Job,
    pub report: &'a Report,
}

impl Listing<'_> {
    // Prints what each call did, which sheet stands, which there can be, and what the threshold of the result is.
    pub fn print(&self) -> io::Result<()> {
        self.print_job()?;
        self.print_steps()?;
        self.print_standing()?;
        for family in self.report.families.iter() {
            self.print_family(family)?;
        }
        self.print_threshold()
    }

    // The size of the sheet, the points of the mask, and the cells of the table that its filters need.
    fn print_job(&self) -> io::Result<()> {
        println!(self.rt; "sheet {} by {}", self.job.size.width, self.job.size.height)?;
        println!(self.rt; "points {}", self.job.mask.count())?;
        println!(self.rt; "table {} cells", self.job.table_cells())
    }

    // The loaded sheet, and each call with the sheet that it leaves.
    fn print_steps(&self) -> io::Result<()> {
        println!(self.rt)?;
        let shown = &self.report.shown;
        if let Some(loaded) = shown.pictures().first() {
            self.print_picture(shown, loaded)?;
        }
        for (i, step) in self.report.steps.iter().enumerate() {
            let number = i.saturating_add(1);
            println!(self.rt; "call {number}, {}: {}", step.pass, ToldAnswer(step.answer))?;
            self.print_step(step)?;
        }
        Ok(())
    }

    // The sheet after a step. It is drawn where its name is new.
    fn print_step(&self, step: &Step) -> io::Result<()> {
        let shown = &self.report.shown;
        match step.sheet {
            Shown::New(name) => {
                if let Some(picture) = shown.named(name) {
                    self.print_picture(shown, picture)?;
                }
            }
            Shown::Again(name) => {
                let again = match step.answer {
                    Answer::Refused(_) => "still",
                    _ => "again",
                };
                println!(self.rt; "{again} {}", SheetName(name))?;
            }
        }
        Ok(())
    }

    // The sheet that stands, and why it does.
    fn print_standing(&self) -> io::Result<()> {
        let standing = self.report.standing;
        let accepted = self.report.accepted();
        let calls = self.report.steps.len();
        let width = self.job.size.width;
        println!(self.rt)?;
        println!(self.rt; "the sheet that stands: {}", SheetName(standing))?;
        self.rt.print(ToldRows {
            width,
            cells: self.report.outcome.gray.cells.as_slice(),
        })?;
        println!(self.rt;
            "accepted {accepted} of {calls} calls, {}",
            Reason(standing)
        )?;
        println!(self.rt; "the survey is the sheet as loaded; the others are views of it")
    }

    // The sheets that there can be, and how many of them the calls did not show.
    fn print_family(&self, family: &Family) -> io::Result<()> {
        println!(self.rt)?;
        println!(self.rt;
            "the sheets that there can be, beginning with {}",
            Filter::from(family.first)
        )?;
        for picture in family.sheets.pictures() {
            self.print_picture(&family.sheets, picture)?;
        }
        let all = family.sheets.different();
        let seen = self.report.shown.different();
        let more = all.saturating_sub(seen);
        println!(self.rt;
            "different sheets: {all}; the calls showed {seen}, so {more} more could be made"
        )
    }

    // A picture of an album under its name: drawn, or told by the first picture that has the same cells.
    fn print_picture(&self, album: &Album, picture: &Picture) -> io::Result<()> {
        let name = SheetName(picture.name);
        let width = self.job.size.width;
        match album.first_like(picture.cells.as_slice()) {
            Some(first) if first != picture.name => {
                println!(self.rt; "{name}: the cells of {}", SheetName(first))
            }
            _ => {
                println!(self.rt; "{name}")?;
                self.rt.print(ToldRows {
                    width,
                    cells: picture.cells.as_slice(),
                })
            }
        }
    }

    // The threshold of the result beside the result on the threshold.
    fn print_threshold(&self) -> io::Result<()> {
        let outcome = &self.report.outcome;
        let level = self.job.threshold.level();
        let width = self.job.size.width;
        println!(self.rt)?;
        println!(self.rt; "threshold {level} of the sheet that stands")?;
        self.rt.print(ToldRows {
            width,
            cells: self.report.flags.as_slice(),
        })?;
        println!(self.rt;
            "the sheet that stands after the same calls on threshold {level} of the loaded sheet"
        )?;
        self.rt.print(ToldRows {
            width,
            cells: outcome.flag.cells.as_slice(),
        })?;
        let alike = self.report.flags.as_slice() == outcome.flag.cells.as_slice()
            && outcome.gray.answers.as_slice() == outcome.flag.answers.as_slice();
        if alike {
            println!(self.rt; "the same cells, and the same answers")
        } else {
            println!(self.rt; "not the same")
        }
    }
}
