// Characters of a text: a byte, or a lead byte with the tail byte behind it.
ghost use Rattle.std.specs.Prelude.{◌≡◌, ◌<◌, ◌≤◌, ◌∷◌, [], ◌&&◌, length, get_or, MatchOption};
ghost use Rattle.text.specs.Text.{is_tail};
ghost use Rattle.text.specs.Characters.{is_lead, characters, is_byte};
ghost use Rattle.names.specs.Short.{short_bytes, form_bytes};

use text::{ascii, byte_at};

// One to three bytes: a character, or a form of one.
#[derive(Clone, Copy)]
pub enum Short {
    One(u8),
    Two(u8, u8),
    Three(u8, u8, u8),
}

impl Short {
    // The first byte, and those behind it.
    pub fn split_first(self) -> (u8, Option<Short>)
        ensures { short_bytes self ≡ result.0 ∷ form_bytes result.1 }
    {
        match self {
            Short::One(b) => (b, None),
            Short::Two(b, c) => (b, Some(Short::One(c))),
            Short::Three(b, c, d) => (b, Some(Short::Two(c, d))),
        }
    }

    // The first character of a form.
    #[tactic(auto, unfolding(text::specs::Characters::characters))]
    pub fn first_character(self) -> Short
        ensures { short_bytes result ≡ get_or (characters (short_bytes self)) 0 [] }
    {
        match self {
            Short::One(b) => Short::One(b),
            Short::Two(b, c) | Short::Three(b, c, _) => {
                if is_two(b, c) {
                    Short::Two(b, c)
                } else {
                    Short::One(b)
                }
            }
        }
    }

    #[tactic(auto, unfolding(text::specs::Characters::is_byte))]
    pub fn is_byte(self, b: u8) -> bool
        ensures { result ≡ is_byte b (short_bytes self) }
    {
        match self {
            Short::One(c) => c == b,
            _ => false,
        }
    }
}

// Whether the two bytes are one character.
#[tactic(auto, unfolding(text::specs::Text::is_tail, text::specs::Characters::is_lead))]
fn is_two(lead: u8, tail: u8) -> bool
    ensures { result ≡ is_lead lead && is_tail tail }
{
    (ascii::in_range(0xC2, 0xC5, lead) || lead == 0xCA || lead == 0xCC || lead == 0xCE)
        && ascii::in_range(0x80, 0xBF, tail)
}

// The character that begins with the byte b, and what is behind it.
pub fn character(b: u8, rest: &[u8]) -> (Short, &[u8])
    ensures { (characters (b ∷ rest.now) ≡ short_bytes result.0 ∷ characters result.1.now) × (length result.1.now ≤ length rest.now) }
{
    let tail = byte_at(rest, 0);
    if is_two(b, tail) {
        (Short::Two(b, tail), &rest[1..])
    } else {
        (Short::One(b), rest)
    }
}

// The first character of a text, and what is behind it.
pub fn split_character(s: &[u8]) -> Option<(Short, &[u8])>
    ensures { MatchOption result (s.now ≡ []) (λ r. (characters s.now ≡ short_bytes r.0 ∷ characters r.1.now) × (length r.1.now < length s.now)) }
{
    let (&b, rest) = s.split_first()?;
    Some(character(b, rest))
}

#[tactic(auto, unfolding(text::specs::Characters::characters))]
pub fn first_character(s: &[u8]) -> Option<Short>
    ensures { form_bytes result ≡ get_or (characters s.now) 0 [] }
{
    split_character(s).map(|(c, _)| c)
}
