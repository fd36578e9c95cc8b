// What filters answer and leave, as listings tell it.
ghost use Rattle.std.specs.Prelude.{Some};
ghost use Rattle.texts.specs.Told.{refusal_text, answer_text, row_text};

use cells::words::WordForm;
use morphology::call::Answer;
use morphology::refusal::Refusal;
use std::fmt;

// A refusal by its number, and with it what a short table needs and has.
#[derive(Clone, Copy)]
pub struct ToldRefusal(pub Refusal);

// What a call answers.
#[derive(Clone, Copy)]
pub struct ToldAnswer(pub Answer);

// A row of a sheet, each cell by the number that its word is in two's complement.
#[derive(Clone, Copy)]
pub struct ToldRow<'a, K>(pub &'a [K]);

// The rows of a sheet, the northmost first, whose cells lie row by row.
#[derive(Clone, Copy)]
pub struct ToldRows<'a, K> {
    pub width: usize,
    pub cells: &'a [K],
}

impl fmt::Display for ToldRefusal {
    ghost output = { λ t. Some (refusal_text t.0) };

    fn fmt<W: fmt::Write>(&self, f: &mut fmt::Formatter<W>) -> fmt::Result {
        let number = self.0.number();
        match self.0 {
            Refusal::ShortTable { needed, lent } => write!(
                f,
                "refused {number}, the table needs {needed} cells and has {lent}"
            ),
            _ => write!(f, "refused {number}"),
        }
    }
}

impl fmt::Display for ToldAnswer {
    ghost output = { λ t. Some (answer_text t.0) };

    fn fmt<W: fmt::Write>(&self, f: &mut fmt::Formatter<W>) -> fmt::Result {
        match self.0 {
            Answer::Laid => write!(f, "laid"),
            Answer::Picks(picks) => write!(f, "{picks} picks"),
            Answer::Refused(refusal) => { write!(f, "{}", ToldRefusal(refusal)) }
        }
    }
}

impl<K: WordForm> fmt::Display for ToldRow<'_, K> {
    ghost output = { λ r. Some (row_text K.writes r.0.now) };

    fn fmt<W: fmt::Write>(&self, f: &mut fmt::Formatter<W>) -> fmt::Result {
        write!(f, " ")?;
        for cell in self.0 {
            let number = cell.to_word().cast_signed();
            write!(f, " {number}")?;
        }
        Ok(())
    }
}

impl<K: WordForm> fmt::Display for ToldRows<'_, K> {
    fn fmt<W: fmt::Write>(&self, f: &mut fmt::Formatter<W>) -> fmt::Result {
        for row in self.cells.chunks(self.width.max(1)) {
            writeln!(f, "{}", ToldRow(row))?;
        }
        Ok(())
    }
}
