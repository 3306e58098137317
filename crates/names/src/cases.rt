// The case of a character: below 128 by its byte, from U+0080 to U+017F by the table.
ghost use Rattle.std.specs.Prelude.{◌≡◌, map, get_or};
ghost use Rattle.names.specs.Cases.{case_table, case_of, Neither, upper_of, lower_of, first_lower, is_upper_char, is_lower_char};
ghost use Rattle.names.specs.Short.{case_of_letter, short_bytes, form_bytes};

use crate::characters::Short;
use text::ascii;

// An upper letter with its lower form, or a lower one with its upper form.
#[derive(Clone, Copy)]
pub enum Letter {
    Upper(Short),
    Lower(Short),
}

// The code points from U+0080 to U+017F: tools/cases.py writes them from the published Unicode data. A `static`: each index into a `const` would copy it whole.
static CASES: [Option<Letter>; 256] = [
    None,
    None,
    None,
    None,
    None,
    None,
    None,
    None,
    None,
    None,
    None,
    None,
    None,
    None,
    None,
    None,
    None,
    None,
    None,
    None,
    None,
    None,
    None,
    None,
    None,
    None,
    None,
    None,
    None,
    None,
    None,
    None,
    None,
    None,
    None,
    None,
    None,
    None,
    None,
    None,
    None,
    None,
    Some(Letter::Lower(Short::Two(194, 170))),
    None,
    None,
    None,
    None,
    None,
    None,
    None,
    None,
    None,
    None,
    Some(Letter::Lower(Short::Two(206, 156))),
    None,
    None,
    None,
    None,
    Some(Letter::Lower(Short::Two(194, 186))),
    None,
    None,
    None,
    None,
    None,
    Some(Letter::Upper(Short::Two(195, 160))),
    Some(Letter::Upper(Short::Two(195, 161))),
    Some(Letter::Upper(Short::Two(195, 162))),
    Some(Letter::Upper(Short::Two(195, 163))),
    Some(Letter::Upper(Short::Two(195, 164))),
    Some(Letter::Upper(Short::Two(195, 165))),
    Some(Letter::Upper(Short::Two(195, 166))),
    Some(Letter::Upper(Short::Two(195, 167))),
    Some(Letter::Upper(Short::Two(195, 168))),
    Some(Letter::Upper(Short::Two(195, 169))),
    Some(Letter::Upper(Short::Two(195, 170))),
    Some(Letter::Upper(Short::Two(195, 171))),
    Some(Letter::Upper(Short::Two(195, 172))),
    Some(Letter::Upper(Short::Two(195, 173))),
    Some(Letter::Upper(Short::Two(195, 174))),
    Some(Letter::Upper(Short::Two(195, 175))),
    Some(Letter::Upper(Short::Two(195, 176))),
    Some(Letter::Upper(Short::Two(195, 177))),
    Some(Letter::Upper(Short::Two(195, 178))),
    Some(Letter::Upper(Short::Two(195, 179))),
    Some(Letter::Upper(Short::Two(195, 180))),
    Some(Letter::Upper(Short::Two(195, 181))),
    Some(Letter::Upper(Short::Two(195, 182))),
    None,
    Some(Letter::Upper(Short::Two(195, 184))),
    Some(Letter::Upper(Short::Two(195, 185))),
    Some(Letter::Upper(Short::Two(195, 186))),
    Some(Letter::Upper(Short::Two(195, 187))),
    Some(Letter::Upper(Short::Two(195, 188))),
    Some(Letter::Upper(Short::Two(195, 189))),
    Some(Letter::Upper(Short::Two(195, 190))),
    Some(Letter::Lower(Short::Two(83, 83))),
    Some(Letter::Lower(Short::Two(195, 128))),
    Some(Letter::Lower(Short::Two(195, 129))),
    Some(Letter::Lower(Short::Two(195, 130))),
    Some(Letter::Lower(Short::Two(195, 131))),
    Some(Letter::Lower(Short::Two(195, 132))),
    Some(Letter::Lower(Short::Two(195, 133))),
    Some(Letter::Lower(Short::Two(195, 134))),
    Some(Letter::Lower(Short::Two(195, 135))),
    Some(Letter::Lower(Short::Two(195, 136))),
    Some(Letter::Lower(Short::Two(195, 137))),
    Some(Letter::Lower(Short::Two(195, 138))),
    Some(Letter::Lower(Short::Two(195, 139))),
    Some(Letter::Lower(Short::Two(195, 140))),
    Some(Letter::Lower(Short::Two(195, 141))),
    Some(Letter::Lower(Short::Two(195, 142))),
    Some(Letter::Lower(Short::Two(195, 143))),
    Some(Letter::Lower(Short::Two(195, 144))),
    Some(Letter::Lower(Short::Two(195, 145))),
    Some(Letter::Lower(Short::Two(195, 146))),
    Some(Letter::Lower(Short::Two(195, 147))),
    Some(Letter::Lower(Short::Two(195, 148))),
    Some(Letter::Lower(Short::Two(195, 149))),
    Some(Letter::Lower(Short::Two(195, 150))),
    None,
    Some(Letter::Lower(Short::Two(195, 152))),
    Some(Letter::Lower(Short::Two(195, 153))),
    Some(Letter::Lower(Short::Two(195, 154))),
    Some(Letter::Lower(Short::Two(195, 155))),
    Some(Letter::Lower(Short::Two(195, 156))),
    Some(Letter::Lower(Short::Two(195, 157))),
    Some(Letter::Lower(Short::Two(195, 158))),
    Some(Letter::Lower(Short::Two(197, 184))),
    Some(Letter::Upper(Short::Two(196, 129))),
    Some(Letter::Lower(Short::Two(196, 128))),
    Some(Letter::Upper(Short::Two(196, 131))),
    Some(Letter::Lower(Short::Two(196, 130))),
    Some(Letter::Upper(Short::Two(196, 133))),
    Some(Letter::Lower(Short::Two(196, 132))),
    Some(Letter::Upper(Short::Two(196, 135))),
    Some(Letter::Lower(Short::Two(196, 134))),
    Some(Letter::Upper(Short::Two(196, 137))),
    Some(Letter::Lower(Short::Two(196, 136))),
    Some(Letter::Upper(Short::Two(196, 139))),
    Some(Letter::Lower(Short::Two(196, 138))),
    Some(Letter::Upper(Short::Two(196, 141))),
    Some(Letter::Lower(Short::Two(196, 140))),
    Some(Letter::Upper(Short::Two(196, 143))),
    Some(Letter::Lower(Short::Two(196, 142))),
    Some(Letter::Upper(Short::Two(196, 145))),
    Some(Letter::Lower(Short::Two(196, 144))),
    Some(Letter::Upper(Short::Two(196, 147))),
    Some(Letter::Lower(Short::Two(196, 146))),
    Some(Letter::Upper(Short::Two(196, 149))),
    Some(Letter::Lower(Short::Two(196, 148))),
    Some(Letter::Upper(Short::Two(196, 151))),
    Some(Letter::Lower(Short::Two(196, 150))),
    Some(Letter::Upper(Short::Two(196, 153))),
    Some(Letter::Lower(Short::Two(196, 152))),
    Some(Letter::Upper(Short::Two(196, 155))),
    Some(Letter::Lower(Short::Two(196, 154))),
    Some(Letter::Upper(Short::Two(196, 157))),
    Some(Letter::Lower(Short::Two(196, 156))),
    Some(Letter::Upper(Short::Two(196, 159))),
    Some(Letter::Lower(Short::Two(196, 158))),
    Some(Letter::Upper(Short::Two(196, 161))),
    Some(Letter::Lower(Short::Two(196, 160))),
    Some(Letter::Upper(Short::Two(196, 163))),
    Some(Letter::Lower(Short::Two(196, 162))),
    Some(Letter::Upper(Short::Two(196, 165))),
    Some(Letter::Lower(Short::Two(196, 164))),
    Some(Letter::Upper(Short::Two(196, 167))),
    Some(Letter::Lower(Short::Two(196, 166))),
    Some(Letter::Upper(Short::Two(196, 169))),
    Some(Letter::Lower(Short::Two(196, 168))),
    Some(Letter::Upper(Short::Two(196, 171))),
    Some(Letter::Lower(Short::Two(196, 170))),
    Some(Letter::Upper(Short::Two(196, 173))),
    Some(Letter::Lower(Short::Two(196, 172))),
    Some(Letter::Upper(Short::Two(196, 175))),
    Some(Letter::Lower(Short::Two(196, 174))),
    Some(Letter::Upper(Short::Three(105, 204, 135))),
    Some(Letter::Lower(Short::One(73))),
    Some(Letter::Upper(Short::Two(196, 179))),
    Some(Letter::Lower(Short::Two(196, 178))),
    Some(Letter::Upper(Short::Two(196, 181))),
    Some(Letter::Lower(Short::Two(196, 180))),
    Some(Letter::Upper(Short::Two(196, 183))),
    Some(Letter::Lower(Short::Two(196, 182))),
    Some(Letter::Lower(Short::Two(196, 184))),
    Some(Letter::Upper(Short::Two(196, 186))),
    Some(Letter::Lower(Short::Two(196, 185))),
    Some(Letter::Upper(Short::Two(196, 188))),
    Some(Letter::Lower(Short::Two(196, 187))),
    Some(Letter::Upper(Short::Two(196, 190))),
    Some(Letter::Lower(Short::Two(196, 189))),
    Some(Letter::Upper(Short::Two(197, 128))),
    Some(Letter::Lower(Short::Two(196, 191))),
    Some(Letter::Upper(Short::Two(197, 130))),
    Some(Letter::Lower(Short::Two(197, 129))),
    Some(Letter::Upper(Short::Two(197, 132))),
    Some(Letter::Lower(Short::Two(197, 131))),
    Some(Letter::Upper(Short::Two(197, 134))),
    Some(Letter::Lower(Short::Two(197, 133))),
    Some(Letter::Upper(Short::Two(197, 136))),
    Some(Letter::Lower(Short::Two(197, 135))),
    Some(Letter::Lower(Short::Three(202, 188, 78))),
    Some(Letter::Upper(Short::Two(197, 139))),
    Some(Letter::Lower(Short::Two(197, 138))),
    Some(Letter::Upper(Short::Two(197, 141))),
    Some(Letter::Lower(Short::Two(197, 140))),
    Some(Letter::Upper(Short::Two(197, 143))),
    Some(Letter::Lower(Short::Two(197, 142))),
    Some(Letter::Upper(Short::Two(197, 145))),
    Some(Letter::Lower(Short::Two(197, 144))),
    Some(Letter::Upper(Short::Two(197, 147))),
    Some(Letter::Lower(Short::Two(197, 146))),
    Some(Letter::Upper(Short::Two(197, 149))),
    Some(Letter::Lower(Short::Two(197, 148))),
    Some(Letter::Upper(Short::Two(197, 151))),
    Some(Letter::Lower(Short::Two(197, 150))),
    Some(Letter::Upper(Short::Two(197, 153))),
    Some(Letter::Lower(Short::Two(197, 152))),
    Some(Letter::Upper(Short::Two(197, 155))),
    Some(Letter::Lower(Short::Two(197, 154))),
    Some(Letter::Upper(Short::Two(197, 157))),
    Some(Letter::Lower(Short::Two(197, 156))),
    Some(Letter::Upper(Short::Two(197, 159))),
    Some(Letter::Lower(Short::Two(197, 158))),
    Some(Letter::Upper(Short::Two(197, 161))),
    Some(Letter::Lower(Short::Two(197, 160))),
    Some(Letter::Upper(Short::Two(197, 163))),
    Some(Letter::Lower(Short::Two(197, 162))),
    Some(Letter::Upper(Short::Two(197, 165))),
    Some(Letter::Lower(Short::Two(197, 164))),
    Some(Letter::Upper(Short::Two(197, 167))),
    Some(Letter::Lower(Short::Two(197, 166))),
    Some(Letter::Upper(Short::Two(197, 169))),
    Some(Letter::Lower(Short::Two(197, 168))),
    Some(Letter::Upper(Short::Two(197, 171))),
    Some(Letter::Lower(Short::Two(197, 170))),
    Some(Letter::Upper(Short::Two(197, 173))),
    Some(Letter::Lower(Short::Two(197, 172))),
    Some(Letter::Upper(Short::Two(197, 175))),
    Some(Letter::Lower(Short::Two(197, 174))),
    Some(Letter::Upper(Short::Two(197, 177))),
    Some(Letter::Lower(Short::Two(197, 176))),
    Some(Letter::Upper(Short::Two(197, 179))),
    Some(Letter::Lower(Short::Two(197, 178))),
    Some(Letter::Upper(Short::Two(197, 181))),
    Some(Letter::Lower(Short::Two(197, 180))),
    Some(Letter::Upper(Short::Two(197, 183))),
    Some(Letter::Lower(Short::Two(197, 182))),
    Some(Letter::Upper(Short::Two(195, 191))),
    Some(Letter::Upper(Short::Two(197, 186))),
    Some(Letter::Lower(Short::Two(197, 185))),
    Some(Letter::Upper(Short::Two(197, 188))),
    Some(Letter::Lower(Short::Two(197, 187))),
    Some(Letter::Upper(Short::Two(197, 190))),
    Some(Letter::Lower(Short::Two(197, 189))),
    Some(Letter::Lower(Short::One(83))),
];

fn entry_of(list: &[Option<Letter>], k: usize) -> Option<Letter>
    ensures { case_of_letter result ≡ get_or (map case_of_letter list.now) k Neither }
{
    list.get(k).copied().flatten()
}

// The entry at a place of the table, and none behind it.
fn entry_at(k: usize) -> Option<Letter>
    ensures { case_of_letter result ≡ get_or case_table k Neither }
{
    entry_of(&CASES, k)
}

// The entry of a character of two bytes.
fn letter_at(lead: u8, tail: u8) -> Option<Letter>
    ensures { case_of_letter result ≡ case_of lead tail }
{
    entry_at(64 * (lead as usize).saturating_sub(194) + (tail as usize).saturating_sub(128))
}

// It differs from `lower_of` in a byte's form and in the kind of the entry that is asked for, as `is_upper_char` does from `is_lower_char` below: two words, which one
// function would be handed. Were a byte made an entry too, so that all four look at its kind alone, the proof that such an entry is right would be longer.
#[tactic(auto, unfolding(crate::specs::Cases::upper_of, crate::specs::Cases::raised))]
pub fn upper_of(c: Short) -> Short
    ensures { short_bytes result ≡ upper_of (short_bytes c) }
{
    match c {
        Short::One(b) => Short::One(ascii::to_upper(b)),
        Short::Two(lead, tail) | Short::Three(lead, tail, _) => match letter_at(lead, tail) {
            Some(Letter::Lower(form)) => form,
            _ => c,
        },
    }
}

#[tactic(auto, unfolding(crate::specs::Cases::lower_of, crate::specs::Cases::lowered))]
pub fn lower_of(c: Short) -> Short
    ensures { short_bytes result ≡ lower_of (short_bytes c) }
{
    match c {
        Short::One(b) => Short::One(ascii::to_lower(b)),
        Short::Two(lead, tail) | Short::Three(lead, tail, _) => match letter_at(lead, tail) {
            Some(Letter::Upper(form)) => form,
            _ => c,
        },
    }
}

// The first code point of the lower form.
#[tactic(auto, unfolding(crate::specs::Cases::first_lower))]
pub fn first_lower(c: Short) -> Short
    ensures { short_bytes result ≡ first_lower (short_bytes c) }
{
    lower_of(c).first_character()
}

// Where there is no character, it is neither.
#[tactic(auto, unfolding(crate::specs::Cases::is_upper_char))]
pub fn is_upper_char(c: Option<Short>) -> bool
    ensures { result ≡ is_upper_char (form_bytes c) }
{
    match c {
        None => false,
        Some(Short::One(b)) => ascii::is_upper(b),
        Some(Short::Two(lead, tail) | Short::Three(lead, tail, _)) => {
            matches!(letter_at(lead, tail), Some(Letter::Upper(_)))
        }
    }
}

#[tactic(auto, unfolding(crate::specs::Cases::is_lower_char))]
pub fn is_lower_char(c: Option<Short>) -> bool
    ensures { result ≡ is_lower_char (form_bytes c) }
{
    match c {
        None => false,
        Some(Short::One(b)) => ascii::is_lower(b),
        Some(Short::Two(lead, tail) | Short::Three(lead, tail, _)) => {
            matches!(letter_at(lead, tail), Some(Letter::Lower(_)))
        }
    }
}
