// The one word by which a cell is listed.
ghost use Rattle.std.specs.Prelude.{◌≡◌, ℕ, Some};
ghost use Rattle.std.specs.Option.{option_map};
ghost use Rattle.cells.specs.Kinds.{gray_cell, height_cell, marks_of, return_cell};
ghost use Rattle.jobs.specs.Words.{gray_listed, height_listed, flags_listed, return_listed};

use cells::echo::ReturnBits;
use cells::flags::Flags;
use cells::gray::Gray;
use cells::height::Height;
use cells::words::WordForm;

// A kind whose cells are listed: each cell has one word, however it is stored.
pub trait Listed: WordForm {
    ghost listed: { Self → ℕ };

    // The word of the cell that this value means. Taken in again, it gives this cell.
    fn word(self) -> u32
        ensures answer { result ≡ listed self }
        ensures again { option_map Self.Kind.means (Self.WordForm.reads result) ≡ Some (Self.Kind.means self) };
}

// The four bodies are one, but no default: that a value's word is the listed one holds in the range of its type alone, and a
// law of the trait, which a default body would cite, speaks of all numbers.
impl Listed for Gray {
    ghost listed = { λ g. gray_listed (gray_cell g.0) };

    fn word(self) -> u32 {
        self.to_word()
    }
}

impl Listed for Height {
    ghost listed = { λ h. height_listed (height_cell h.0) };

    fn word(self) -> u32 {
        self.to_word()
    }
}

impl Listed for Flags {
    ghost listed = { λ f. flags_listed (marks_of f.0) };

    fn word(self) -> u32 {
        self.to_word()
    }
}

impl Listed for ReturnBits {
    ghost listed = { λ r. return_listed (return_cell r.0) };

    fn word(self) -> u32 {
        self.to_word()
    }
}
