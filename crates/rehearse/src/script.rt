// The lines of a script.

#[derive(Clone, Copy)]
pub enum Line {
    Say,
    Next,
    // after so many asks, with this seed
    Cut(u64, u64),
}

// The number that digits spell, if there are any and it fits.
fn number(digits: &[u8]) -> Option<u64> {
    if !digits.iter().all(u8::is_ascii_digit) {
        return None;
    }
    str::from_utf8(digits).ok()?.parse().ok()
}

// The first word and what follows the blank after it.
fn parted(text: &[u8]) -> Option<(&[u8], &[u8])> {
    let at = text.iter().position(|byte| *byte == b' ')?;
    Some((&text[..at], &text[at + 1..]))
}

fn cut_of(text: &[u8]) -> Option<Line> {
    let (word, rest) = parted(text)?;
    if word != b"cut".as_slice() {
        return None;
    }
    let (asks, seed) = parted(rest)?;
    Some(Line::Cut(number(asks)?, number(seed)?))
}

pub fn line_of(text: &[u8]) -> Line {
    if text == b"next".as_slice() {
        return Line::Next;
    }
    cut_of(text).unwrap_or(Line::Say)
}

// The sectors that `size N` says.
pub fn size_of(text: &[u8]) -> Option<u64> {
    let (word, rest) = parted(text)?;
    if word != b"size".as_slice() {
        return None;
    }
    number(rest)
}
