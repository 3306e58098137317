// The text under a pair: a part of the names, or of the text of a tape.
ghost use Rattle.std.specs.Prelude.{◌≡◌, ◌+◌, ◌<◌, length, take, drop, get_or};
ghost use Rattle.sheet.specs.Rows.{text_at};

use crate::numbers::pair_at;

// The first bytes behind an offset, as many as asked for and as there are.
pub fn part_of(text: &[u8], offset: usize, size: usize) -> &[u8]
    ensures { result.now ≡ take size (drop offset text.now) }
{
    let rest = &text[offset.min(text.len())..];
    &rest[..size.min(rest.len())]
}

// The text under the pair whose two numbers stand from `i`.
pub fn pair_text<'a>(rows: &[u32], names: &'a [u8], i: usize) -> &'a [u8]
    requires { i + 1 < length rows.now }
    ensures { result.now ≡ text_at names.now (get_or rows.now i 0) (get_or rows.now (i + 1) 0) }
{
    let pair = pair_at(rows, i);
    part_of(names, pair.at, pair.len)
}
