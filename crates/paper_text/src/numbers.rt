// Numbers, ids and views, each from one word.
ghost use Rattle.std.specs.Prelude.{◌≡◌, length, if◌then◌else◌, Some, None, nat_le};
ghost use Rattle.std.specs.Option.{option_map};
ghost use Rattle.table.specs.Ids.{number};
ghost use Rattle.compactions.specs.Meanings.{view_of};
ghost use Rattle.paper_text.specs.Digits.{digit_value, with_digit, number_in};
ghost use Rattle.paper_text.specs.Numbers.{behind, u32_of, u64_of, positive, negative, signed_of, id_of, view_in};

use crate::lines::split_at;
use compactions::db_state::{SsTableId, SsTableView};
use table::ulid::Ulid;

// The most digits of an id in hex.
const HEX_DIGITS: usize = 32;

// The value of a digit in base 16 or below.
pub(crate) fn digit(b: u8) -> Option<u32>
    ensures { result ≡ digit_value b }
{
    char::from(b).to_digit(16)
}

// A digit more after a number: none where it is not below the base or the whole passes 128 bits.
fn with_digit(value: u128, base: u32, b: u8) -> Option<u128>
    ensures { result ≡ with_digit base value (digit_value b) }
{
    let next = digit(b)?;
    if next >= base {
        return None;
    }
    value
        .checked_mul(u128::from(base))?
        .checked_add(u128::from(next))
}

// A number of at least one digit below the base, unless it passes 128 bits. A `for` with `?`, which says
// no less than a try_fold.
fn number(word: &[u8], base: u32) -> Option<u128>
    ensures { result ≡ number_in base word.now }
{
    if word.is_empty() {
        return None;
    }
    let mut value: u128 = 0;
    for b in word {
        value = with_digit(value, base, *b)?;
    }
    Some(value)
}

// What follows a beginning.
pub(crate) fn behind<'a>(word: &'a [u8], beginning: &[u8]) -> Option<&'a [u8]>
    ensures { option_map (λ w. w.now) result ≡ behind beginning.now word.now }
{
    word.strip_prefix(beginning)
}

// Two functions, each a line: one generic function would state its result by what TryFrom gives, and
// each caller would prove the bound again.
pub fn u32_in(word: &[u8]) -> Option<u32>
    ensures { result ≡ u32_of word.now }
{
    u32::try_from(number(word, 10)?).ok()
}

pub fn u64_in(word: &[u8]) -> Option<u64>
    ensures { result ≡ u64_of word.now }
{
    u64::try_from(number(word, 10)?).ok()
}

// A minus may stand before the digits.
pub fn i64_in(word: &[u8]) -> Option<i64>
    ensures { result ≡ signed_of word.now }
{
    match behind(word, b"-") {
        Some(digits) => negative(number(digits, 10)?),
        None => positive(number(word, 10)?),
    }
}

fn positive(value: u128) -> Option<i64>
    ensures { result ≡ positive (Some value) }
{
    i64::try_from(value).ok()
}

// The same below zero.
fn negative(value: u128) -> Option<i64>
    ensures { result ≡ negative (Some value) }
{
    0_i64.checked_sub_unsigned(u64::try_from(value).ok()?)
}

// An id in decimal, or in hex after 0x.
pub fn id_in(word: &[u8]) -> Option<Ulid>
    ensures { option_map number result ≡ id_of word.now }
{
    let value = match behind(word, b"0x") {
        Some(hex) => hex_number(hex)?,
        None => number(word, 10)?,
    };
    Some(Ulid::from(value))
}

fn hex_number(digits: &[u8]) -> Option<u128>
    ensures { result ≡ (if nat_le (length digits.now) 32 then number_in 16 digits.now else None) }
{
    if digits.len() > HEX_DIGITS {
        return None;
    }
    number(digits, 16)
}

// Two ids with = between them.
pub fn view_in(word: &[u8]) -> Option<SsTableView>
    ensures { option_map view_of result ≡ view_in word.now }
{
    let (id, sst) = split_at(word, b'=')?;
    Some(SsTableView {
        id: id_in(id)?,
        sst: SsTableId(id_in(sst)?),
    })
}
