// The label call (paper 01): a row's type reference, as a part of the names or of the word list, and the call's number. `words`: the words
// of the word list. Rows, names and words stand apart: they are what the exported calls are lent, and each of those makes one call here.
#![tactic(auto)]

pub mod words;

ghost use Rattle.std.specs.Prelude.{◌≡◌, ◌≤◌};
ghost use Rattle.rows.specs.Ten.{as_ten};
ghost use Rattle.ir_types.specs.Label.{has_reference, named_label, word_label, row_label, label as labelled, LabelIs, LabelNumberIs};
ghost use Rattle.sheet.specs.Rows.{bit};
ghost use Rattle.ir_label.specs.Spot.{in_words, IsSpot};

use ir_types::tags;
use rows::numbers::Pair;
use rows::ten::{Ten, ten_at};
use sheet::limits;
use sheet::refusal::{Refusal, returned_number};

// The two buffers that a label may be a part of, with the numbers that the exported call stores.
#[derive(Clone, Copy)]
pub enum Buffer {
    Names = 0,
    Words = 1,
}

// By hand: std derives no `From` of a discriminant.
impl From<Buffer> for u32 {
    ghost from_gives = { λ buffer number. number ≡ bit (in_words buffer) };

    #[tactic(auto, unfolding(sheet::specs::Rows::bit))]
    fn from(buffer: Buffer) -> u32 {
        buffer as u32
    }
}

// Where a label stands: len bytes from at on.
#[derive(Clone, Copy)]
pub struct Spot {
    pub buffer: Buffer,
    pub at: usize,
    pub len: usize,
}

fn name_spot(names: &[u8], pair: Pair) -> Result<Spot, Refusal>
    ensures { IsSpot (named_label names.now pair.at pair.len) result }
{
    if (names.len() < pair.at) || (names.len() - pair.at < pair.len) {
        return Err(Refusal::BadLabel);
    }
    Ok(Spot {
        buffer: Buffer::Names,
        at: pair.at,
        len: pair.len,
    })
}

// Word a, from 1, of the word list.
fn word_spot(words: &[u8], a: u32) -> Result<Spot, Refusal>
    requires { (1 ≤ a) × (a ≤ 5) }
    ensures { IsSpot (word_label words.now a) result }
{
    if !words::five_words(words) {
        return Err(Refusal::BadLabel);
    }
    let n = a as usize;
    let at = words::word_start(words, n - 1);
    let end = words::line_end(words, at);
    Ok(Spot {
        buffer: Buffer::Words,
        at,
        len: end - at,
    })
}

fn has_reference(t: Ten) -> bool
    ensures { result ≡ has_reference (as_ten t) }
{
    let tagged = matches!(
        t.tag,
        tags::NEWTYPE | tags::VALUE_WITH_ATTRIBUTES | tags::FIELD | tags::VARIANT | tags::ATTRIBUTE
    );
    tagged & (t.a <= 5) & ((t.tag != tags::NEWTYPE) | (1 <= t.a))
}

fn row_spot(names: &[u8], words: &[u8], t: Ten) -> Result<Spot, Refusal>
    ensures { IsSpot (row_label names.now words.now (as_ten t)) result }
{
    if !has_reference(t) {
        return Err(Refusal::BadLabel);
    }
    if t.a != 0 {
        return word_spot(words, t.a);
    }
    if t.tag == tags::VALUE_WITH_ATTRIBUTES {
        name_spot(names, t.pair(1))
    } else {
        name_spot(names, t.pair(2))
    }
}

// Where the label of a row stands. Where there is none the part is the empty one at the start of the names.
pub fn find_label(rows: &[u32], names: &[u8], words: &[u8], k: usize) -> Result<Spot, Refusal>
    ensures { IsSpot (labelled rows.now names.now words.now k) result }
{
    let n = rows.len();
    if n % limits::ROW != 0 {
        return Err(Refusal::BadLabel);
    }
    if n / limits::ROW <= k {
        return Err(Refusal::BadLabel);
    }
    row_spot(names, words, ten_at(rows, limits::ROW * k))
}

// The label of a row, as a part of the names or of the word list.
pub fn label<'a>(rows: &[u32], names: &'a [u8], words: &'a [u8], k: usize) -> &'a [u8]
    ensures { LabelIs rows.now names.now words.now k names.entry.ref_ptr words.entry.ref_ptr result.ref_ptr result.now }
{
    let Ok(s) = find_label(rows, names, words, k) else {
        return &names[..0];
    };
    let end = s.at + s.len;
    match s.buffer {
        Buffer::Words => &words[s.at..end],
        Buffer::Names => &names[s.at..end],
    }
}

// The number that the label call returns.
pub fn label_number(rows: &[u32], names: &[u8], words: &[u8], k: usize) -> u32
    ensures { LabelNumberIs rows.now names.now words.now k result }
{
    returned_number(find_label(rows, names, words, k))
}
