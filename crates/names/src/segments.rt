// A name read byte by byte: as it stands, or by its segments, each with its first character in the upper form. No space is lent.
ghost use Rattle.std.specs.Prelude.{◌≡◌, ◌∷◌, [], ◌<◌};
ghost use Rattle.names.specs.Scans.{cased};
ghost use Rattle.names.specs.Begun.{Begun};
ghost use Rattle.names.specs.Short.{short_bytes};

use crate::bytes::TextBytes;
use crate::cases::{lower_of, upper_of};
use crate::characters::{Short, character};
use crate::reading::{Reading, reading_behind};
use text::ascii::{to_lower, to_upper};

// A character of a segment: in the upper form where it is the first, else as it is or in the lower form. The two flags are the definition's, and so is `lowers`
// of `SegmentBytes`: the form as an enum or a closure would only name the same two tests again.
#[tactic(auto, unfolding(crate::specs::Scans::cased))]
fn cased(c: Short, up: bool, lowers: bool) -> Short
    ensures { short_bytes result ≡ cased up lowers (short_bytes c) }
{
    if up {
        return upper_of(c);
    }
    if lowers { lower_of(c) } else { c }
}

// The same of a byte by itself. One function over both would go by a trait of bytes and characters that have an upper and a lower form, which is longer.
#[tactic(auto, unfolding(crate::specs::Scans::cased, crate::specs::Cases::upper_of, crate::specs::Cases::lower_of))]
pub fn cased_byte(b: u8, up: bool, lowers: bool) -> u8
    ensures { cased up lowers (b ∷ []) ≡ result ∷ [] }
{
    if up {
        return to_upper(b);
    }
    if lowers { to_lower(b) } else { b }
}

// The first byte of the form of the character that begins with b, how the name is read on, and what is behind the character. Never inlined: only bytes from 128 on
// ask for it.
#[inline(never)]
fn begin(b: u8, rest: &[u8], up: bool, lowers: bool) -> (u8, Reading, &[u8])
    ensures { Begun b rest.now up lowers result.0 result.1 result.2.now }
{
    let (c, rest) = character(b, rest);
    let (b, form) = cased(c, up, lowers).split_first();
    (b, reading_behind(form), rest)
}

// What is left of a name. `up`: the next character is the first of its segment.
#[derive(Drop)]
pub struct SegmentBytes<'a> {
    pub reading: Reading,
    pub rest: &'a [u8],
    pub separator: u8,
    pub lowers: bool,
    pub up: bool,
    ghost plain: { separator < 128 },
}

impl Iterator for SegmentBytes<'_> {
    ghost use Rattle.std.specs.Iterator.{YieldsFirst, item_count};
    ghost use Rattle.names.specs.Same.{bytes_left};

    type Item = u8;

    ghost next_gives = { YieldsFirst bytes_left };

    ghost remaining = { item_count bytes_left };

    // Inlined, so that a comparison keeps what is left of both names in registers.
    #[inline(always)]
    fn next(&mut self) -> Option<u8> {
        match self.reading {
            Reading::Whole => {
                let (&b, rest) = self.rest.split_first()?;
                self.rest = rest;
                return Some(b);
            }
            Reading::Form(form) => {
                let (b, form) = form.split_first();
                self.reading = reading_behind(form);
                return Some(b);
            }
            Reading::Segments => {}
        }
        // A `while`: separators are passed, any number of them, before a byte is given.
        while let Some((&b, rest)) = self.rest.split_first() {
            self.rest = rest;
            if b != self.separator {
                let up = self.up;
                self.up = false;
                if b < 128 {
                    return Some(cased_byte(b, up, self.lowers));
                }
                let (b, reading, rest) = begin(b, rest, up, self.lowers);
                self.reading = reading;
                self.rest = rest;
                return Some(b);
            }
            self.up = true;
        }
        None
    }
}

impl TextBytes for SegmentBytes<'_> {
    ghost use Rattle.names.specs.Same.{bytes_left};

    ghost left = { bytes_left };

    ghost ends = { λ s. (tt, tt) };

    ghost gives = { λ s b t steps. steps };
}
