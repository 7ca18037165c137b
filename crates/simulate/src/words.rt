// Numbers as a scenario writes them.
use program_parts::line_error::NoForm;

/// A number in its shortest decimal form: digits alone, and no zero before another digit.
pub fn number(word: &str) -> Result<usize, NoForm> {
    match word.as_bytes() {
        [b'0'] => Ok(0),
        [b'1'..=b'9', ..] => word.parse().ok().ok_or(NoForm),
        _ => Err(NoForm),
    }
}

/// A number of at most 255.
pub fn byte(word: &str) -> Result<u8, NoForm> {
    u8::try_from(number(word)?).ok().ok_or(NoForm)
}
