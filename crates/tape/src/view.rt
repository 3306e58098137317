// An event view: the text and one event's marks together, and what is seen of its tag through it.
ghost use Rattle.std.specs.Prelude.{◌≡◌, ◌+◌, ◌*◌, ◌≤◌, length};
ghost use Rattle.xsd_parser.specs.Seen.{seen};
ghost use Rattle.xsd_parser.specs.Tape.{pair_count};
ghost use Rattle.tape.specs.Pairs.{TagInside, tag_at};
ghost use Rattle.tape.specs.Lookup.{seen_at};
ghost use Rattle.tape.specs.Marks.{marks_of_tag};

use crate::attributes::{SeenTag, find_seen};

// A text and marks whose pairs are places in it: all marks of a tape, or those of one event, its name's pair first.
#[derive(Clone, Copy)]
pub struct View<'a, 'b> {
    pub text: &'a [u8],
    pub marks: &'b [u32],
}

// The word of the event's tag and its values, all attributes looked up at once. A count stands beside the marks: by the contract they may be more than the event's. This and
// `in_view` are forms of paper 01 that are kept (docs/DECISIONS.md, 36).
pub fn lookup<'a, 'b>(v: View<'a, 'b>, count: usize) -> SeenTag<'a, 'b>
    requires { TagInside v.text.now v.marks.now 0 count }
    ensures { seen_at result ≡ seen (tag_at v.entry.text.now v.entry.marks.now 0 count) }
{
    find_seen(v, 0, count)
}

// The same for a caller that has no view: the view is made here, once for an event.
pub fn in_view<'a, 'b>(text: &'a [u8], marks: &'b [u32], count: usize) -> SeenTag<'a, 'b>
    requires { TagInside text.now marks.now 0 count }
    ensures { seen_at result ≡ seen (tag_at text.now marks.now 0 count) }
{
    lookup(View { text, marks }, count)
}

// The marks of the tag with so many attributes whose pairs start at a place.
pub fn event_marks(marks: &[u32], pairs: usize, count: usize) -> &[u32]
    requires { pairs + 2 * pair_count count ≤ length marks.now }
    ensures { result.now ≡ marks_of_tag marks.now pairs count }
{
    let end = pairs + (4 * count + 2);
    &marks[pairs..end]
}
