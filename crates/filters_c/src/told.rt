// What a call is told.
ghost use Rattle.std.specs.Prelude.{◌≡◌};
ghost use Rattle.filters_c.specs.Told.{told};

use morphology::refusal::Refusal;

// The number of the refusal with its values, or 0 where the filter went ahead, and the picks that it made.
#[repr(C)]
pub struct Told {
    pub refusal: u8,
    pub values: [usize; 4],
    pub picks: u64,
}

impl From<Result<u64, Refusal>> for Told {
    ghost from_gives = { λ r t. t ≡ told r };

    fn from(answer: Result<u64, Refusal>) -> Told {
        match answer {
            Ok(picks) => Told {
                refusal: 0,
                values: [0; 4],
                picks,
            },
            Err(refusal) => Told {
                refusal: refusal.number(),
                values: refusal.values(),
                picks: 0,
            },
        }
    }
}
