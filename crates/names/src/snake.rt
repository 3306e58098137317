// The name conversion of 001 (lower.rs) that gives a field's name, written into a lent part.
ghost use Rattle.std.specs.Prelude.{◌≡◌, ◌∷◌, get_or, []};
ghost use Rattle.text.specs.Characters.{characters};
ghost use Rattle.names.specs.Names.{xml_to_snake_case, starts_word};
ghost use Rattle.names.specs.Answers.{Put};
ghost use Rattle.names.specs.Short.{short_bytes, form_bytes};
ghost use Rattle.names.specs.Same.{snake_left};

use crate::bytes::{TextBytes, put_byte, put_bytes};
use crate::cases::{first_lower, is_lower_char, is_upper_char};
use crate::characters::{Short, first_character, split_character};
use text::{ascii, byte_at};

// Whether an underscore stands before c, which follows the character before it and precedes the rest.
#[tactic(auto, unfolding(crate::specs::Names::starts_word))]
fn starts_word(before: Option<Short>, c: Short, rest: &[u8]) -> bool
    ensures { result ≡ starts_word (form_bytes before) (short_bytes c) (get_or (characters rest.now) 0 []) }
{
    is_upper_char(Some(c))
        && (is_lower_char(before) || is_upper_char(before) && is_lower_char(first_character(rest)))
}

// What is left of a snake form: the rest of a character's form, and the bytes behind that character, which is `before`.
#[derive(Drop)]
pub struct SnakeBytes<'a> {
    pub form: Option<Short>,
    pub before: Option<Short>,
    pub rest: &'a [u8],
}

impl Iterator for SnakeBytes<'_> {
    ghost use Rattle.std.specs.Iterator.{YieldsFirst, item_count};

    type Item = u8;

    ghost next_gives = { YieldsFirst snake_left };

    ghost remaining = { item_count snake_left };

    fn next(&mut self) -> Option<u8> {
        if let Some(form) = self.form {
            let (b, form) = form.split_first();
            self.form = form;
            return Some(b);
        }
        let (c, rest) = split_character(self.rest)?;
        let form = first_lower(c);
        let starts = starts_word(self.before, c, rest);
        self.before = Some(c);
        self.rest = rest;
        if starts {
            self.form = Some(form);
            return Some(b'_');
        }
        let (b, form) = form.split_first();
        self.form = form;
        Some(b)
    }
}

impl TextBytes for SnakeBytes<'_> {
    ghost left = { snake_left };

    ghost ends = { λ s. (tt, tt) };

    ghost gives = { λ s b t steps. steps };
}

// Character by character. Never inlined: only a name with a byte from 128 on asks for it.
#[inline(never)]
#[tactic(auto, unfolding(crate::specs::Names::xml_to_snake_case))]
fn put_characters(name: &[u8], out: &mut [u8]) -> Option<usize>
    ensures { Put (xml_to_snake_case name.now) out.old result out.new }
{
    let bytes = SnakeBytes {
        form: None,
        before: None,
        rest: name,
    };
    put_bytes(bytes, out)
}

// The same test of bytes below 128, where 0 stands for no byte: as in the definitions (`first` of what is left is 0 at the end), and 0 is no letter.
#[tactic(auto, unfolding(crate::specs::Names::starts_word, crate::specs::Cases::is_upper_char, crate::specs::Cases::is_lower_char))]
fn byte_starts(prev: u8, c: u8, next: u8) -> bool
    ensures { result ≡ starts_word (prev ∷ []) (c ∷ []) (next ∷ []) }
{
    ascii::is_upper(c) && (ascii::is_lower(prev) || ascii::is_upper(prev) && ascii::is_lower(next))
}

// An element's or attribute's name as a field's name: byte by byte, or from the start again where a byte is not below 128.
pub fn xml_to_snake_case(name: &[u8], out: &mut [u8]) -> Option<usize>
    ensures { Put (xml_to_snake_case name.now) out.old result out.new }
{
    let mut prev = 0;
    let mut end = 0;
    for (i, c) in name.iter().enumerate() {
        let next = byte_at(name, i + 1);
        if *c | next >= 128 {
            return put_characters(name, out);
        }
        if byte_starts(prev, *c, next) {
            end = put_byte(out, end, b'_')?;
        }
        end = put_byte(out, end, ascii::to_lower(*c))?;
        prev = *c;
    }
    Some(end)
}
