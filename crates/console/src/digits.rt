// Bytes written as hexadecimal digits.
ghost use Rattle.std.specs.Prelude.{◌≡◌, ◌≤◌, IfOk, vec_items};
ghost use Rattle.std.specs.Option.{option_map, unwrap_or};
ghost use Rattle.console.specs.Hex.{hex_byte, hex_bytes, hex_value};
ghost use Rattle.console.specs.Words.{no_blanks};

use crate::words::next_byte;
use std::alloc::{AllocError, Global};

// More than any digit: no pair with it is a byte.
const NO_DIGIT: u16 = 256;

macro_rules! values {
    (@one _) => { NO_DIGIT };
    (@one $value:literal) => { $value };
    ($($each:tt)*) => { [$(values!(@one $each)),*] };
}

// The value of each byte as a digit. Whether a figure or a letter comes next cannot be foreseen, so tests would be slower.
// With an `Option` there would be a test for each digit, and not one for each pair.
static VALUES: [u16; 256] = values! {
    _ _ _ _ _ _ _ _ _ _ _ _ _ _ _ _
    _ _ _ _ _ _ _ _ _ _ _ _ _ _ _ _
    _ _ _ _ _ _ _ _ _ _ _ _ _ _ _ _
    0 1 2 3 4 5 6 7 8 9 _ _ _ _ _ _
    _ 10 11 12 13 14 15 _ _ _ _ _ _ _ _ _
    _ _ _ _ _ _ _ _ _ _ _ _ _ _ _ _
    _ 10 11 12 13 14 15 _ _ _ _ _ _ _ _ _
    _ _ _ _ _ _ _ _ _ _ _ _ _ _ _ _
    _ _ _ _ _ _ _ _ _ _ _ _ _ _ _ _
    _ _ _ _ _ _ _ _ _ _ _ _ _ _ _ _
    _ _ _ _ _ _ _ _ _ _ _ _ _ _ _ _
    _ _ _ _ _ _ _ _ _ _ _ _ _ _ _ _
    _ _ _ _ _ _ _ _ _ _ _ _ _ _ _ _
    _ _ _ _ _ _ _ _ _ _ _ _ _ _ _ _
    _ _ _ _ _ _ _ _ _ _ _ _ _ _ _ _
    _ _ _ _ _ _ _ _ _ _ _ _ _ _ _ _
};

// 256 for a byte that is no digit.
fn digit_value(byte: u8) -> u16
    ensures value { result ≡ unwrap_or (hex_value byte) 256 }
    ensures within { result ≤ 256 }
{
    VALUES[byte as usize]
}

fn hex_byte(high: u8, low: u8) -> Option<u8>
    ensures { result ≡ hex_byte high low }
{
    let pair = 16 * digit_value(high) + digit_value(low);
    if pair <= u8::MAX as u16 {
        Some(pair as u8)
    } else {
        None
    }
}

// The bytes that pairs of digits spell, or None.
pub(crate) fn hex_bytes(heap: Global, digits: &[u8]) -> Result<Option<Vec<u8>>, AllocError>
    ensures { IfOk result (λ o. option_map vec_items o ≡ hex_bytes digits.now) }
{
    let mut bytes = Vec::with_capacity(heap, digits.len() / 2)?;
    let mut rest = digits;
    while let [high, low, after @ ..] = rest {
        let Some(byte) = hex_byte(*high, *low) else {
            return Ok(None);
        };
        bytes.push_reserved(byte);
        rest = after;
    }
    Ok(if rest.is_empty() { Some(bytes) } else { None })
}

// As `hex_bytes`, and blanks may stand anywhere. The bytes are written over their digits, so that no memory is touched anew.
pub(crate) fn spaced_bytes<'a>(text: &'a mut [u8]) -> Option<&'a [u8]>
    ensures { option_map (λ bytes. bytes.now) result ≡ hex_bytes (no_blanks text.old) }
{
    let mut from = 0;
    let mut len = 0;
    loop {
        // digits mostly stand side by side, and two pairs at once are faster
        if let [a, b, c, d, ..] = &text[from..]
            && let Some(first) = hex_byte(*a, *b)
            && let Some(second) = hex_byte(*c, *d)
        {
            text[len] = first;
            text[len + 1] = second;
            len += 2;
            from += 4;
            continue;
        }
        let Some((high, after)) = next_byte(text, from) else {
            return Some(&text[..len]);
        };
        let (low, after) = next_byte(text, after)?;
        text[len] = hex_byte(high, low)?;
        len += 1;
        from = after;
    }
}
