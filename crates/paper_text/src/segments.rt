// The bytes of a segment.
ghost use Rattle.std.specs.Prelude.{◌≡◌};
ghost use Rattle.std.specs.Option.{option_map};
ghost use Rattle.paper_text.specs.Digits.{digit_value, byte_value};
ghost use Rattle.paper_text.specs.Numbers.{value_of, all_digits, pairs, hex_bytes, segment_of, held, held_bytes};

use crate::numbers::{behind, digit};
use crate::words::Words;
use table::rows::Rows;

// The bytes of a segment: those of its word, pairs of hex digits after hex:, or none without a
// word. None where it is written wrongly; more than 16 bytes are refused with the given error.
pub fn segment_in<E: Copy>(mut words: Words<'_>, over: E) -> Option<Result<Rows<u8, 16>, E>>
    ensures { option_map held_bytes result ≡ option_map (held over) (segment_of words.entry) }
{
    let Some(word) = words.next() else {
        return Some(Ok(Rows::new(0)));
    };
    if words.next().is_some() {
        return None;
    }
    match behind(word, b"hex:") {
        Some(digits) => hex_bytes(digits, over),
        None => Some(Rows::from_slice(word, 0, over)),
    }
}

fn hex_bytes<E: Copy>(digits: &[u8], over: E) -> Option<Result<Rows<u8, 16>, E>>
    ensures { option_map held_bytes result ≡ option_map (held over) (hex_bytes digits.now) }
{
    if digits.is_empty() || digits.len() % 2 != 0 || !are_digits(digits) {
        return None;
    }
    Some(bytes_of(digits, over))
}

fn are_digits(digits: &[u8]) -> bool
    ensures { result ≡ all_digits digits.now }
{
    digits.iter().all(|b| digit(*b).is_some())
}

// A byte for each pair of digits.
fn bytes_of<E: Copy>(digits: &[u8], over: E) -> Result<Rows<u8, 16>, E>
    ensures { held_bytes result ≡ held over (pairs digits.now) }
{
    let mut bytes = Rows::new(0);
    let (pairs, _) = digits.as_chunks::<2>();
    for [high, low] in pairs {
        bytes.push(byte_or_zero(*high, *low), over)?;
    }
    Ok(bytes)
}

// The byte of two digits; none where one of them is no digit.
fn byte(high: u8, low: u8) -> Option<u8>
    ensures { result ≡ byte_value (digit_value high) (digit_value low) }
{
    u8::try_from(digit(high)? * 16 + digit(low)?).ok()
}

// The same, with 0 for none.
fn byte_or_zero(high: u8, low: u8) -> u8
    ensures { result ≡ value_of (byte_value (digit_value high) (digit_value low)) }
{
    byte(high, low).unwrap_or(0)
}
