// The pairs of the tape (paper 01, "Tape"): the numbers of the marks, and the part of the text under a pair.
// That a pair lies inside is a clause: it is known of the pairs of a judged tag, not of all marks of a view.
ghost use Rattle.std.specs.Prelude.{◌≡◌, get_or};
ghost use Rattle.xsd_parser.specs.Tape.{pair_text};
ghost use Rattle.tape.specs.Pairs.{pair_at, PairInside};

use crate::view::View;
use rows::numbers::wide;
use rows::parts::part_of;

// The number at a place of the marks, 0 past the end: no Option, since the definitions have 0 there and every caller asks for the number.
// Each of this and `text::byte_at` is one line of std's; a function over both would be that line again.
pub fn mark_at(marks: &[u32], at: usize) -> u32
    ensures { result ≡ get_or marks.now at 0 }
{
    marks.get(at).copied().unwrap_or(0)
}

// The part of the text under the pair whose offset stands at a place of the marks.
pub fn pair_part<'a>(v: View<'a, '_>, at: usize) -> &'a [u8]
    ensures { result.now ≡ pair_text v.entry.text.now (pair_at v.entry.marks.now at) }
{
    if v.marks.len() <= at {
        return part_of(v.text, 0, 0);
    }
    let offset = wide(mark_at(v.marks, at));
    let size = wide(mark_at(v.marks, at + 1));
    part_of(v.text, offset, size)
}

// The same where the pair was judged: nothing is tested.
pub fn inside_part<'a>(v: View<'a, '_>, at: usize) -> &'a [u8]
    requires { PairInside v.text.now v.marks.now at }
    ensures { result.now ≡ pair_text v.entry.text.now (pair_at v.entry.marks.now at) }
{
    let offset = wide(v.marks[at]);
    let size = wide(v.marks[at + 1]);
    let end = offset + size;
    &v.text[offset..end]
}
