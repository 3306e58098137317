// A row of ten numbers, made and stored. The contract of row 0's store speaks of what the sheet is
// the packing.
ghost use Rattle.std.specs.Prelude.{◌≡◌, ◌+◌, ◌*◌, ◌≤◌, length};
ghost use Rattle.std.proofs.Math.Seq.{paste};
ghost use Rattle.text.specs.Text.{Text};
ghost use Rattle.rows.specs.Texts.{used_texts, used_length};
ghost use Rattle.rows.specs.Packing.{row_of, numbers_of, Row0Put};

use crate::numbers::RowNumbers;

// Stores a row; no other function stores a whole one.
pub fn put_row(rows: &mut [u32], at: usize, row: [u32; 10])
    requires { 10 * at + 10 ≤ length rows.old }
    ensures { rows.new ≡ paste rows.old (10 * at) row 10 }
{
    rows[10 * at..10 * at + 10].copy_from_slice(&row);
}

// The numbers of a row whose used texts, so long, stand in the names from `at`.
pub fn row_of(at: usize, n: RowNumbers, pairs: usize, first: usize, second: usize) -> [u32; 10]
    requires { (at + used_length pairs first second ≤ 65536) × (pairs ≤ 2) }
    ensures { (t u : Text) → length t ≡ first → length u ≡ second → result ≡ numbers_of at (row_of n (used_texts pairs t u)) }
{
    if pairs == 0 {
        return [n.tag, 0, 0, 0, 0, 0, 0, n.a, n.b, n.c];
    }
    let start = at as u32;
    let len = first as u32;
    if pairs == 1 {
        return [n.tag, start, len, 0, 0, 0, 0, n.a, n.b, n.c];
    }
    [
        n.tag,
        start,
        len,
        start + len,
        second as u32,
        0,
        0,
        n.a,
        n.b,
        n.c,
    ]
}

// Stores the row of the given numbers and texts, so long, that stand in the names from `at`.
pub fn set_row(
    rows: &mut [u32],
    place: usize,
    n: RowNumbers,
    pairs: usize,
    at: usize,
    first: usize,
    second: usize,
)
    requires { (10 * place + 10 ≤ length rows.old) × (at + used_length pairs first second ≤ 65536) × (pairs ≤ 2) }
    ensures { (t u : Text) → length t ≡ first → length u ≡ second → rows.new ≡ paste rows.old (10 * place) (numbers_of at (row_of n (used_texts pairs t u))) 10 }
{
    let row = row_of(at, n, pairs, first, second);
    put_row(rows, place, row);
}

pub fn put_row0(rows: &mut [u32], row: [u32; 10])
    requires { 10 ≤ length rows.old }
    ensures { Row0Put rows.old row rows.new }
{
    put_row(rows, 0, row);
}
