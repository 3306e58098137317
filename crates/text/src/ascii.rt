// Bytes as ASCII: classes of a byte, the two cases of a letter. They are std's methods; the contracts say them in the words of specs/Text.antt, which callers cite.
ghost use Rattle.std.specs.Prelude.{◌≡◌};
ghost use Rattle.text.specs.Text.{between, is_upper, is_lower, is_digit, upper_byte, lower_byte};

#[tactic(auto, unfolding(crate::specs::Text::between))]
pub fn in_range(low: u8, high: u8, b: u8) -> bool
    ensures { result ≡ between low high b }
{
    (low..=high).contains(&b)
}

#[tactic(auto, unfolding(crate::specs::Text::between))]
pub fn is_upper(b: u8) -> bool
    ensures { result ≡ is_upper b }
{
    b.is_ascii_uppercase()
}

#[tactic(auto, unfolding(crate::specs::Text::between))]
pub fn is_lower(b: u8) -> bool
    ensures { result ≡ is_lower b }
{
    b.is_ascii_lowercase()
}

#[tactic(auto, unfolding(crate::specs::Text::between))]
pub fn is_digit(b: u8) -> bool
    ensures { result ≡ is_digit b }
{
    b.is_ascii_digit()
}

// The upper form of a lower letter; any other byte is its own.
#[tactic(auto, unfolding(crate::specs::Text::between, crate::specs::Text::upper_byte))]
pub fn to_upper(b: u8) -> u8
    ensures { result ≡ upper_byte b }
{
    b.to_ascii_uppercase()
}

// The lower form of an upper letter; any other byte is its own.
#[tactic(auto, unfolding(crate::specs::Text::between, crate::specs::Text::lower_byte))]
pub fn to_lower(b: u8) -> u8
    ensures { result ≡ lower_byte b }
{
    b.to_ascii_lowercase()
}
