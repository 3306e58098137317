// The root with all inside it, by the names of the open tags.
ghost use Rattle.std.specs.Prelude.{◌≡◌, suc, ◌+◌, ◌*◌, ◌≤◌, ◌<◌, length, drop, false, ◌||◌};
ghost use Rattle.text.specs.Text.{Text, bytes};
ghost use Rattle.xml.specs.Root.{passed_by, close, markup, level_of, level_of_tag, turn, inside, root};
ghost use Rattle.xml.specs.Steps.{starts_with};
ghost use Rattle.xml.specs.Tags.{tag};
ghost use Rattle.xml_text.specs.Answers.{next_piece, PieceIn, names_up_to, GoesOn, IsRoot};

use crate::marks::put_two;
use crate::onward::Onward;
use crate::tags::tag;
use xml_parts::classes::Classes;
use xml_parts::steps::{comment, instruction, literal, matched_name, section, spaces, starts};
use xml_parts::values::char_data;
use xsd_parser::kinds::Kind;

// What stands next inside the root, but for an end tag: a piece without an event, or another tag.
#[derive(Clone, Copy)]
pub enum Content {
    Passed(usize),
    Starting(usize),
}

// Whether a comment, a section or an instruction may stand at a position. A line, as `is_misc` of xml_parts with other words, which one function would be handed.
fn is_marked(text: &[u8], at: usize) -> bool
    ensures { result ≡ (starts_with (bytes "<!") (drop at text.now) || starts_with (bytes "<?") (drop at text.now)) }
{
    starts(text, at, b"<!") | starts(text, at, b"<?")
}

fn markup(classes: &Classes, text: &[u8], at: usize) -> Option<Content>
    requires { starts_with (bytes "</") (drop at text.now) ≡ false }
    ensures { (next_piece text.now result ≡ markup at (drop at text.now)) × PieceIn (length text.now) at result }
{
    if !is_marked(text, at) {
        return Some(Content::Starting(at));
    }
    if starts(text, at, b"<!--") {
        return Some(Content::Passed(comment(text, at)?));
    }
    if starts(text, at, b"<![CDATA[") {
        return Some(Content::Passed(section(text, at)?));
    }
    if starts(text, at, b"<?") {
        return Some(Content::Passed(instruction(classes, text, at)?));
    }
    Some(Content::Starting(at))
}

fn open_tag(
    classes: &Classes,
    text: &[u8],
    slots: &mut [u16],
    marks: &mut [u32],
    here: Onward,
) -> Option<Onward>
    requires { (length text.now ≤ 65536) × (length text.now < 3 * length slots.old) × (here.count < length slots.old) × (here.used ≤ 131072) }
    ensures { GoesOn text.now here.at slots.new marks.old here.used marks.new result (level_of_tag (names_up_to text.now slots.old here.count) (tag here.at (drop here.at text.now))) }
{
    let whole = tag(
        classes,
        text,
        here.at,
        &mut slots[here.count..],
        marks,
        here.used,
    )?;
    let (count, used, at) = (here.count, whole.used, whole.behind);
    match whole.kind {
        Kind::Start => {
            slots[count] = whole.start as u16;
            Some(Onward {
                count: count + 1,
                used,
                at,
            })
        }
        Kind::Empty | Kind::Close => Some(Onward { count, used, at }),
    }
}

// An end tag, whose name is held against that of the innermost open tag while it is read.
fn close_tag(
    classes: &Classes,
    text: &[u8],
    slots: &[u16],
    marks: &mut [u32],
    here: Onward,
) -> Option<Onward>
    requires { (length text.now ≤ 65536) × (here.count ≤ length slots.now) × (0 < here.count) × (here.used ≤ 131072) }
    ensures { GoesOn text.now here.at slots.now marks.old here.used marks.new result (level_of (names_up_to text.now slots.now here.count) (close here.at (drop here.at text.now))) }
{
    let start = literal(text, here.at, b"</")?;
    let top = slots[here.count - 1] as usize;
    let end = matched_name(classes, text, start, top)?;
    let behind = literal(text, spaces(classes, text, end), b">")?;
    put_two(marks, here.used, Kind::Close as u32, 0);
    Some(Onward {
        count: here.count - 1,
        used: here.used + 2,
        at: behind,
    })
}

fn turn(
    classes: &Classes,
    text: &[u8],
    slots: &mut [u16],
    marks: &mut [u32],
    here: Onward,
) -> Option<Onward>
    requires { (length text.now ≤ 65536) × (length text.now < 3 * length slots.old) × (here.at ≤ length text.now) × (0 < here.count) }
    ensures { GoesOn text.now here.at slots.new marks.old here.used marks.new result (turn (names_up_to text.now slots.old here.count) here.at (drop here.at text.now)) }
{
    let (count, used) = (here.count, here.used);
    let start = char_data(classes, text, here.at)?;
    if starts(text, start, b"</") {
        let tag = Onward {
            count,
            used,
            at: start,
        };
        return close_tag(classes, text, slots, marks, tag);
    }
    let piece = markup(classes, text, start)?;
    match piece {
        Content::Passed(at) => Some(Onward { count, used, at }),
        Content::Starting(at) => {
            let tag = Onward { count, used, at };
            open_tag(classes, text, slots, marks, tag)
        }
    }
}

// The marks used by the root, and the position behind it.
#[derive(Clone, Copy)]
pub struct WholeRoot {
    pub used: usize,
    pub behind: usize,
}

// A `while`: a turn opens or closes a tag, and the root ends where none is open.
fn inside(
    classes: &Classes,
    text: &[u8],
    slots: &mut [u16],
    marks: &mut [u32],
    from: Onward,
) -> Option<WholeRoot>
    requires { (length text.now ≤ 65536) × (length text.now < 3 * length slots.old) × (from.at ≤ length text.now) }
    ensures { IsRoot text.now marks.old from.used marks.new result (inside (suc (length (drop from.at text.now))) (names_up_to text.now slots.old from.count) from.at (drop from.at text.now)) }
{
    let mut here = from;
    while 0 < here.count {
        here = turn(classes, text, slots, marks, here)?;
    }
    Some(WholeRoot {
        used: here.used,
        behind: here.at,
    })
}

// The root, with places enough for the names of open tags and the keys of a tag: each took three bytes at least.
fn root_over(
    classes: &Classes,
    text: &[u8],
    slots: &mut [u16],
    marks: &mut [u32],
    at: usize,
) -> Option<WholeRoot>
    requires { (length text.now ≤ 65536) × (length text.now < 3 * length slots.old) }
    ensures { IsRoot text.now marks.old 0 marks.new result (root at (drop at text.now)) }
{
    let whole = tag(classes, text, at, slots, marks, 0)?;
    let (used, behind) = (whole.used, whole.behind);
    match whole.kind {
        Kind::Start => {
            slots[0] = whole.start as u16;
            let first = Onward {
                count: 1,
                used,
                at: behind,
            };
            inside(classes, text, slots, marks, first)
        }
        Kind::Empty | Kind::Close => Some(WholeRoot { used, behind }),
    }
}

// The root of a text of less than 3 * N bytes, with N places, which stand on the stack of this call alone. An array: the library has no heap.
fn root_of<const N: usize>(
    classes: &Classes,
    text: &[u8],
    marks: &mut [u32],
    at: usize,
) -> Option<WholeRoot>
    requires { (length text.now ≤ 65536) × (length text.now < 3 * N) × (N ≤ 21846) }
    ensures { IsRoot text.now marks.old 0 marks.new result (root at (drop at text.now)) }
{
    let mut slots = [0; N];
    root_over(classes, text, &mut slots, marks, at)
}

// A short text takes few places, so that few have to be cleared.
pub fn root(classes: &Classes, text: &[u8], marks: &mut [u32], at: usize) -> Option<WholeRoot>
    requires { length text.now ≤ 65536 }
    ensures { IsRoot text.now marks.old 0 marks.new result (root at (drop at text.now)) }
{
    match text.len() {
        ..3072 => root_of::<1024>(classes, text, marks, at),
        ..6144 => root_of::<2048>(classes, text, marks, at),
        ..12288 => root_of::<4096>(classes, text, marks, at),
        ..24576 => root_of::<8192>(classes, text, marks, at),
        ..36864 => root_of::<12288>(classes, text, marks, at),
        ..49152 => root_of::<16384>(classes, text, marks, at),
        ..57344 => root_of::<19115>(classes, text, marks, at),
        _ => root_of::<21846>(classes, text, marks, at),
    }
}
