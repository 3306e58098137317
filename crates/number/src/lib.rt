// Numbers: 000, `parse_u32` and `parse_u64`, with the spellings of order 2. An occurrence number is a plain u32;
// lengths count characters and digit facets count digits, each with a type of its own (read in `counts`).
#![tactic(auto)]

pub mod counts;

ghost use Rattle.std.specs.Prelude.{◌≡◌, ◌-◌, ◌^◌, true, false, MatchOption};
ghost use Rattle.text.specs.Text.{is_digit};
ghost use Rattle.number.specs.Number.{number, plain_number, numeral, is_minus_zeros, after_plus};
ghost use Rattle.number.specs.Answers.{of_number};

use text::trimmed;

// The value of a minLength or maxLength facet.
#[derive(Clone, Copy)]
pub struct CharacterCount(pub u64);

// The value of a totalDigits or fractionDigits facet.
#[derive(Clone, Copy)]
pub struct DigitCount(pub u32);

// The text behind an optional plus sign.
fn after_plus(s: &[u8]) -> &[u8]
    ensures { result.now ≡ after_plus s.now }
{
    match s {
        [b'+', rest @ ..] => rest,
        _ => s,
    }
}

// The value of a digit.
fn digit_value(b: u8) -> Option<u64>
    ensures { MatchOption result (is_digit b ≡ false) (λ d. (is_digit b ≡ true) × (d ≡ b - 48)) }
{
    char::from(b).to_digit(10).map(u64::from)
}

// The value of one or more digits, where it fits.
fn parse_digits(digits: &[u8]) -> Option<u64>
    ensures { of_number result ≡ numeral (2 ^ 64) digits.now }
{
    if digits.is_empty() {
        return None;
    }
    let mut value: u64 = 0;
    for b in digits {
        let digit = digit_value(*b)?;
        let tens = value.checked_mul(10)?;
        value = tens.checked_add(digit)?;
    }
    Some(value)
}

// Whether a minus stands before zeros, one at least.
fn is_minus_zeros(s: &[u8]) -> bool
    ensures { result ≡ is_minus_zeros s.now }
{
    match s {
        [b'-', b'0', rest @ ..] => rest.iter().all(|b| *b == b'0'),
        _ => false,
    }
}

// What a text gives by paper 01 alone.
fn parse_plain(s: &[u8]) -> Option<u64>
    ensures { of_number result ≡ plain_number 64 s.now }
{
    parse_digits(after_plus(s))
}

// The same with the spellings of order 2.
fn parse_spelt(s: &[u8]) -> Option<u64>
    ensures { of_number result ≡ number 64 s.now }
{
    let t = trimmed(s);
    if is_minus_zeros(t) {
        return Some(0);
    }
    parse_plain(t)
}

// Nearly all numbers are plain, and a text that paper 01 takes keeps its value: the spellings are tried behind it.
pub fn parse_u64(s: &[u8]) -> Option<u64>
    ensures { of_number result ≡ number 64 s.now }
{
    parse_plain(s).or_else(|| parse_spelt(s))
}

// A u32 is read as a u64, whose value has to fit.
pub fn parse_u32(s: &[u8]) -> Option<u32>
    ensures { of_number result ≡ number 32 s.now }
{
    u32::try_from(parse_u64(s)?).ok()
}
