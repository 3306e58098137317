// The pairs of a record (paper 01, "Tape") judged for the refusals 4 and 5.
// A record's pairs stand among the marks of all records, so how many there are is an argument.
ghost use Rattle.std.specs.Prelude.{◌≡◌, ◌+◌, ◌*◌, ◌≤◌, length, drop, true};
ghost use Rattle.text.specs.Text.{is_plain};
ghost use Rattle.xsd_parser.specs.Tape.{pairs_of, all_inside, all_ascii};

use crate::pairs;
use crate::view::View;
use rows::numbers::wide;

// Where a pair ends in the text; the sum may pass 2^32.
fn pair_end(offset: u32, size: u32) -> usize
    ensures { result ≡ offset + size }
{
    offset as usize + size as usize
}

// 4: whether each of n pairs lies inside the text and starts at or after the end of the one before. By an index: a pair is two of the marks, which each turn reads at
// once.
pub fn pairs_inside(limit: usize, marks: &[u32], from: usize, n: usize) -> bool
    requires { from + 2 * n ≤ length marks.now }
    ensures { result ≡ all_inside limit 0 (pairs_of n (drop from marks.now)) }
{
    let mut end = 0;
    for i in 0..n {
        let at = from + 2 * i;
        let offset = marks[at];
        if wide(offset) < end {
            return false;
        }
        end = pair_end(offset, marks[at + 1]);
        if limit < end {
            return false;
        }
    }
    true
}

// 5: whether under each of n pairs stands a text, each read.
fn bytes_ascii(v: View<'_, '_>, from: usize, n: usize) -> bool
    requires { from + 2 * n ≤ length v.marks.now }
    ensures { result ≡ all_ascii v.entry.text.now (pairs_of n (drop from v.entry.marks.now)) }
{
    (0..n).all(|i| text::is_text(pairs::pair_part(v, from + 2 * i)))
}

// The same; `plain` says that all bytes of the text are below 128, so that none is read again. It is known at run time alone, so it is an argument;
// a struct of text, `plain` and what it says would be turned into a view again for each part that is read.
pub fn pairs_ascii(v: View<'_, '_>, from: usize, n: usize, plain: bool) -> bool
    requires n_in_bounds { from + 2 * n ≤ length v.marks.now }
    requires text_value { plain ≡ true → is_plain v.text.now ≡ true }
    ensures { result ≡ all_ascii v.entry.text.now (pairs_of n (drop from v.entry.marks.now)) }
{
    if plain {
        return true;
    }
    bytes_ascii(v, from, n)
}
