// What is seen of a tag on the tape: its word, and the values that are looked up, whose places are found in one walk over its attributes.
// The view and a place are arguments: what is read, and where.
ghost use Rattle.std.specs.Prelude.{◌≡◌};
ghost use Rattle.text.specs.Text.{local_name};
ghost use Rattle.xsd_parser.specs.Event.{or_empty};
ghost use Rattle.xsd_parser.specs.Words.{word_of};
ghost use Rattle.xsd_parser.specs.Seen.{seen};
ghost use Rattle.xsd_parser.specs.Tape.{pair_text};
ghost use Rattle.tape.specs.Keys.{key_number, key_of};
ghost use Rattle.tape.specs.Pairs.{pair_at, PairInside, TagInside, tag_at};
ghost use Rattle.tape.specs.Lookup.{value_of, value_under, kept_first, PlacesOf, seen_at};

use crate::pairs::{inside_part, pair_part};
use crate::view::View;
use crate::words::{Key, key_of, word_of};
use xsd_parser::words::Word;

// The word of a tag, and where the values of the nine keys stand in the marks of its view, 0 where there is none: of each key that of the first attribute. Callers
// ask for the values. The places are numbers, since with a slice for each key, which is three words with its Option, reading took 15 in a hundred more instructions (the bar:
// reading is no slower in compare/CALLS.md).
// Any such value may be asked, so a place may be past the marks, and `value` tests it.
#[derive(Clone, Copy)]
pub struct SeenTag<'a, 'b> {
    pub word: Word,
    pub view: View<'a, 'b>,
    pub places: [usize; 9],
}

impl<'a> SeenTag<'a, '_> {
    // The value of a key, if the tag has one.
    pub fn value(&self, key: Key) -> Option<&'a [u8]>
        ensures { value_of result ≡ value_under self.now key }
    {
        match self.places[key as usize] {
            0 => None,
            at => Some(pair_part(self.view, at)),
        }
    }

    // The same where an absent value is the empty text.
    pub fn value_or_empty(&self, key: Key) -> &'a [u8]
        ensures { result.now ≡ or_empty (value_under self.now key) }
    {
        self.value(key).unwrap_or(&[])
    }
}

// The key under the pair at a place of the marks.
fn key_at(v: View<'_, '_>, at: usize) -> Option<Key>
    requires { PairInside v.text.now v.marks.now at }
    ensures { key_number result ≡ key_of (local_name (pair_text v.entry.text.now (pair_at v.entry.marks.now at))) }
{
    key_of(inside_part(v, at))
}

// The word under the pair at a place of the marks.
fn word_under(v: View<'_, '_>, at: usize) -> Word
    requires { PairInside v.text.now v.marks.now at }
    ensures { result ≡ word_of (local_name (pair_text v.entry.text.now (pair_at v.entry.marks.now at))) }
{
    word_of(inside_part(v, at))
}

// A value's place is kept where its key is one of the nine and has none yet.
fn keep_first(places: &mut [usize; 9], key: Option<Key>, at: usize)
    ensures { places.new ≡ kept_first places.old (key_number key) at }
{
    let Some(key) = key else {
        return;
    };
    let place = key as usize;
    if places[place] == 0 {
        places[place] = at;
    }
}

// Where the values stand, by their keys. Each key is looked at once.
fn find_places(v: View<'_, '_>, pairs: usize, count: usize) -> [usize; 9]
    requires { TagInside v.text.now v.marks.now pairs count }
    ensures { PlacesOf v.entry.text.now v.entry.marks.now (tag_at v.entry.text.now v.entry.marks.now pairs count).attributes result }
{
    let mut places = [0; 9];
    for i in 0..count {
        let at = pairs + 2 + 4 * i;
        keep_first(&mut places, key_at(v, at), at + 2);
    }
    places
}

// What is seen of the tag with so many attributes whose pairs start at a place. The count stands beside the marks: by the contract they may be more than the event's.
pub fn find_seen<'a, 'b>(v: View<'a, 'b>, pairs: usize, count: usize) -> SeenTag<'a, 'b>
    requires { TagInside v.text.now v.marks.now pairs count }
    ensures { seen_at result ≡ seen (tag_at v.entry.text.now v.entry.marks.now pairs count) }
{
    SeenTag {
        word: word_under(v, pairs),
        view: v,
        places: find_places(v, pairs, count),
    }
}
