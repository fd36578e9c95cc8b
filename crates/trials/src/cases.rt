// Strips as text: parts with blanks between them, whose bytes follow one another. A part is an even number of hexadecimal
// digits; the word repeat, digits, and how many times their bytes stand; or the word empty, which has no bytes.
use anyhow::anyhow;
use std::alloc::Global;

// The most bytes that a line gives.
const MOST: usize = 1_048_576;

// Whether a line has a strip: it is neither blank nor a remark.
pub fn is_case(line: &str) -> bool {
    line.split_whitespace()
        .next()
        .is_some_and(|word| !word.starts_with("#"))
}

// The bytes of the strip that a line writes.
pub fn read_case(alloc: Global, line: &str) -> anyhow::Result<Vec<u8>> {
    let mut bytes = Vec::new(alloc);
    let mut words = line.split_whitespace();
    while let Some(word) = words.next() {
        match word {
            "empty" => {}
            "repeat" => {
                let (Some(digits), Some(times)) = (words.next(), words.next()) else {
                    return Err(anyhow!("digits and a number have to follow the word repeat"));
                };
                let times = times
                    .parse::<usize>()
                    .map_err(|_| anyhow!("{times} does not say how many times"))?;
                add(alloc, digits, times, &mut bytes)?
            }
            digits => add(alloc, digits, 1, &mut bytes)?,
        }
    }
    Ok(bytes)
}

// Puts the bytes of the digits behind those that are there, so many times.
fn add(alloc: Global, digits: &str, times: usize, bytes: &mut Vec<u8>) -> anyhow::Result<()> {
    let part = hex::decode(alloc, digits)?;
    if times > MOST {
        return Err(anyhow!("{times} times is too often"));
    }
    for _ in 0..times {
        bytes.extend_from_slice(part.as_slice())?;
    }
    Ok(())
}
