// The system's reason, in its own words. An `io::Error` prints these and, behind them, the number that C has for it,
// as in "No such file or directory (os error 2)": the number is cut off.
ghost use Rattle.std.specs.Prelude.{◌≤◌};

use std::io::{Error, Write};

// The reason at the front of text, as far as there is room for it; and how many bytes it has.
pub(crate) fn put_reason(text: &mut [u8; 256], why: &Error) -> usize
    ensures { result ≤ 256 }
{
    let mut left = &mut text[..];
    let _ = write!(left, "{why}");
    let n = 256 - left.len().min(256);
    if why.raw_os_error().is_none() {
        return n;
    }
    // The blank in front of the last bracket that opens goes, too.
    match text[..n].iter().rposition(|b| *b == b'(') {
        Some(bracket) => bracket.saturating_sub(1),
        None => n,
    }
}
