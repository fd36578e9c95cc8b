// The words of a strip, four bytes each.
ghost use Rattle.std.specs.Prelude.{◌≡◌, ◌+◌, ◌<◌, ◌≤◌, drop, length, take, IfSome};
ghost use Rattle.std.specs.List.{slice_get};
ghost use Rattle.strips.specs.Words.{kind, numbers};

// The word with that number, if there is one.
pub(crate) fn word_at(words: &[[u8; 4]], i: usize) -> Option<u32>
    ensures answer { result ≡ slice_get (numbers words.now) i }
    ensures within { IfSome result (λ _. i < length words.now) }
{
    words.get(i).map(|word| u32::from_be_bytes(*word))
}

// Bits 31 to 28 of a word.
pub(crate) fn kind(word: u32) -> u32
    ensures { result ≡ kind word }
{
    word / 0x1000_0000
}
