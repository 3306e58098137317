// The numbers of facets: lengths, which count characters, and digit facets, which count digits.
ghost use Rattle.std.specs.Prelude.{◌≡◌};
ghost use Rattle.number.specs.Number.{number};
ghost use Rattle.number.specs.Counts.{of_characters, of_digits};

use crate::{CharacterCount, DigitCount, parse_u32, parse_u64};

// The number of a length facet.
pub fn character_count(s: &[u8]) -> Option<CharacterCount>
    ensures { of_characters result ≡ number 64 s.now }
{
    Some(CharacterCount(parse_u64(s)?))
}

// The number of a digit facet.
pub fn digit_count(s: &[u8]) -> Option<DigitCount>
    ensures { of_digits result ≡ number 32 s.now }
{
    Some(DigitCount(parse_u32(s)?))
}
