// Numbers written as decimal digits.
ghost use Rattle.std.specs.Prelude.{◌≡◌};
ghost use Rattle.console.specs.Numbers.{digit_of, number_in, with_digit};

// The digits of a number, at most; leading zeros count.
const DIGITS: usize = 10;

// None for a number above the largest of its type.
pub(crate) fn parse_number(word: &[u8]) -> Option<u32>
    ensures { result ≡ number_in word.now }
{
    if word.is_empty() || word.len() > DIGITS {
        return None;
    }
    let mut number = 0;
    for byte in word {
        number = with_digit(number, *byte)?;
    }
    Some(number)
}

fn with_digit(number: u32, byte: u8) -> Option<u32>
    ensures { result ≡ with_digit number byte }
{
    let longer = 10 * number as u64 + digit_of(byte)? as u64;
    if longer <= u32::MAX as u64 {
        Some(longer as u32)
    } else {
        None
    }
}

fn digit_of(byte: u8) -> Option<u8>
    ensures { result ≡ digit_of byte }
{
    if byte >= b'0' && byte <= b'9' {
        Some(byte - b'0')
    } else {
        None
    }
}
