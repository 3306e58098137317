// Characters of names that UTF-8 spells with two bytes.
ghost use Rattle.std.specs.Prelude.{◌≡◌, ◌&&◌, drop, suc, leb, unwrap_or};
ghost use Rattle.text.specs.Text.{first};
ghost use Rattle.xml.specs.Classes.{is_name_start, is_name, is_pair_of};
ghost use Rattle.xml_parts.specs.Answers.{point_by};

use text::pairs::is_pair;

// The code point of a character of two bytes at a position, if one stands there. Cold, as the tests of a byte below 128 before its calls: texts are mostly ASCII
// (the bar: the tape of an ASCII text takes at most a fiftieth more instructions than where names were ASCII).
#[cold]
fn point_at(text: &[u8], at: usize) -> Option<u32>
    ensures { unwrap_or result 0 ≡ point_by (first (drop at text.now)) (first (drop (suc at) text.now)) }
{
    let lead = text::byte_at(text, at);
    if lead == 0 {
        return None;
    }
    let tail = text::byte_at(text, at + 1);
    if !is_pair(lead, tail) {
        return None;
    }
    Some((lead as u32 - 192) * 64 + (tail as u32 - 128))
}

// All of U+00C0 to U+017F but U+00D7 and U+00F7.
fn is_name_start(point: u32) -> bool
    ensures { result ≡ (leb 128 point && is_name_start point) }
{
    (192..=214).contains(&point) | (216..=246).contains(&point) | (248..=383).contains(&point)
}

// Behind the first character of a name also U+00B7.
fn is_name(point: u32) -> bool
    ensures { result ≡ (leb 128 point && is_name point) }
{
    is_name_start(point) | (point == 183)
}

pub fn is_start_at(text: &[u8], at: usize) -> bool
    ensures { result ≡ is_pair_of is_name_start (first (drop at text.now)) (first (drop (suc at) text.now)) }
{
    128 <= text::byte_at(text, at) && point_at(text, at).is_some_and(is_name_start)
}

pub fn is_name_at(text: &[u8], at: usize) -> bool
    ensures { result ≡ is_pair_of is_name (first (drop at text.now)) (first (drop (suc at) text.now)) }
{
    128 <= text::byte_at(text, at) && point_at(text, at).is_some_and(is_name)
}
