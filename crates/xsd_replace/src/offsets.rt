// The offsets of the rows behind a replaced text, set anew from a running offset.
ghost use Rattle.std.specs.Prelude.{◌≡◌, List, ℕ, ◌+◌, ◌<◌};
ghost use Rattle.xsd_replace.specs.Offsets.{Offsets, OffsetsOf};

use rows::numbers::{numbers_at, pair_at};
use rows::row::set_row;
use rows::texts::texts_length;
use sheet::limits;
use xsd_good::forms::row::used_pairs;

// Sets the offsets of a row whose texts stand in the names from `at` on, and gives the place
// behind them.
pub fn reoffset_row(rows: &mut [u32], place: usize, end: usize, at: usize) -> usize
    requires offsets_of { OffsetsOf rows.old place end at }
    requires place_lt_end { place < end }
    ensures { (goal : List ℕ) (total : ℕ) → Offsets rows.old place end at goal total → Offsets rows.new (place + 1) end result goal total }
{
    let n = numbers_at(rows, place);
    let first = pair_at(rows, limits::ROW * place + 1);
    let second = pair_at(rows, limits::ROW * place + 3);
    let pairs = used_pairs(n.tag, n.a);
    set_row(rows, place, n, pairs, at, first.len, second.len);
    at + texts_length(pairs, first.len, second.len)
}

// Sets the offsets of the rows from `place` to `end` anew, and gives the place behind their texts.
pub fn reoffset(rows: &mut [u32], place: usize, end: usize, at: usize) -> usize
    requires { OffsetsOf rows.old place end at }
    ensures { (goal : List ℕ) (total : ℕ) → Offsets rows.old place end at goal total → (rows.new ≡ goal) × (result ≡ total) }
{
    let mut next = at;
    for i in place..end {
        next = reoffset_row(rows, i, end, next);
    }
    next
}
