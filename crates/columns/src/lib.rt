// Order 10: rows of ten numbers as ten columns of differences, and back. Both ways turn squares of four rows and four columns, `lanes`, four columns in a pass
// over the rows: columns 0 to 3, 4 to 7 and 6 to 9, so that columns 6 and 7 are written twice with the same numbers. The rows behind the last square, three at
// most, follow number by number.
// The first column of four is a number, and c ≤ 6 a clause: a type for it would be made of 0, 4 and 6 at three calls. Height, column and target are three arguments, as in the
// definitions (`Strip`, `Corner`): each step changes the target and leaves the two numbers.
#![tactic(auto)]

ghost use Rattle.std.specs.Prelude.{◌≡◌, ◌+◌, ◌*◌, ◌<◌, ◌≤◌, length, true, false, MatchResult};
ghost use Rattle.sheet.specs.Returned.{refusal_number, bad_length};
ghost use Rattle.sheet.specs.Results.{returned_number};
ghost use Rattle.columns.specs.Columns.{changed, columns_of, restored, row_number_at, rows_of_columns};
ghost use Rattle.columns.specs.Call.{same_lengths, ColumnsIs, RowsIs};
ghost use Rattle.columns.specs.Filled.{Filled, Sized, above_in, by_column, by_row, fours, Corner, Strip, row_above, sums_above};

mod lanes;

use crate::lanes::{difference, read_square, sum, turned, write_square};
use rows::lengths::rows_length;
use sheet::limits;
use sheet::refusal::Refusal;
use std::simd::prelude::*;

// How many columns there are: a row has a number for each.
const COLUMNS: usize = limits::ROW;

// How many rows and columns a square has.
const FOUR: usize = 4;

// The square of row r and column c on and three of each behind them, under the row `above`. Gives its last row.
fn put_square_of_columns(
    rows: &[u32],
    height: usize,
    r: usize,
    c: usize,
    above: u32x4,
    out: &mut [u32],
) -> u32x4
    requires { Sized rows.now out.old height × (c ≤ 6) × (r + 4 ≤ fours height) × (above ≡ row_above rows.now c r) × Strip (by_column height) (changed rows.now) c r (fours height) out.old }
    ensures { (result ≡ row_above rows.now c (r + 4)) × Strip (by_column height) (changed rows.now) c (r + 4) (fours height) out.new × (length out.new ≡ length out.old) }
{
    let (first, second, third, fourth) = read_square(rows, limits::ROW * r + c, limits::ROW);
    let differences = (
        difference(first, above),
        difference(second, first),
        difference(third, second),
        difference(fourth, third),
    );
    write_square(turned(differences), out, c * height + r, height);
    fourth
}

// Four columns from c on, as far as squares reach. `Sized` is a clause: a struct of source, height and a lent target with it as a ghost field is no plainer, since
// each contract would also say that the target is the same.
fn put_four_columns(rows: &[u32], height: usize, c: usize, out: &mut [u32])
    requires { Sized rows.now out.old height × (c ≤ 6) × Corner (by_column height) (changed rows.now) c (fours height) out.old }
    ensures { Corner (by_column height) (changed rows.now) (c + 4) (fours height) out.new × (length out.new ≡ length out.old) }
{
    let mut above = u32x4::splat(0);
    for q in 0..height / FOUR {
        above = put_square_of_columns(rows, height, FOUR * q, c, above, out);
    }
}

// The number above the one at place k, 0 above the first row.
fn above_in(out: &[u32], k: usize) -> u32
    requires { k < length out.now }
    ensures { result ≡ above_in out.now k }
{
    if k < limits::ROW {
        return 0;
    }
    out[k - limits::ROW]
}

// Column c behind its squares.
fn put_rest(rows: &[u32], height: usize, c: usize, out: &mut [u32])
    requires { Sized rows.now out.old height × (c < 10) × Corner (by_column height) (changed rows.now) c height out.old × Corner (by_column height) (changed rows.now) 10 (fours height) out.old }
    ensures { Corner (by_column height) (changed rows.now) (c + 1) height out.new × Corner (by_column height) (changed rows.now) 10 (fours height) out.new × (length out.new ≡ length out.old) }
{
    for r in height / FOUR * FOUR..height {
        let from = limits::ROW * r + c;
        let above = above_in(rows, from);
        out[c * height + r] = rows[from].wrapping_sub(above);
    }
}

// "ten columns, one after the other".
fn put_columns(rows: &[u32], height: usize, out: &mut [u32])
    requires { Sized rows.now out.old height }
    ensures { out.new ≡ columns_of rows.now }
{
    put_four_columns(rows, height, 0, out);
    put_four_columns(rows, height, 4, out);
    put_four_columns(rows, height, 6, out);
    for c in 0..COLUMNS {
        put_rest(rows, height, c, out);
    }
}

// The square of row r and column c on, under the sums `above`. Gives its last row. It differs from `put_square_of_columns` in all but its end: it turns first, and each
// sum stands on the one before it, where a difference stands on the row that was read.
fn put_square_of_rows(
    columns: &[u32],
    height: usize,
    r: usize,
    c: usize,
    above: u32x4,
    out: &mut [u32],
) -> u32x4
    requires { Sized columns.now out.old height × (c ≤ 6) × (r + 4 ≤ fours height) × (above ≡ sums_above columns.now c r) × Strip by_row (restored columns.now) c r (fours height) out.old }
    ensures { (result ≡ sums_above columns.now c (r + 4)) × Strip by_row (restored columns.now) c (r + 4) (fours height) out.new × (length out.new ≡ length out.old) }
{
    let changes = turned(read_square(columns, c * height + r, height));
    let first = sum(above, changes.0);
    let second = sum(first, changes.1);
    let third = sum(second, changes.2);
    let fourth = sum(third, changes.3);
    write_square(
        (first, second, third, fourth),
        out,
        limits::ROW * r + c,
        limits::ROW,
    );
    fourth
}

// Four columns of the rows from c on, as far as squares reach. It differs from `put_four_columns` in what its square is and in what is above
// it: one function over a trait with both squares would be longer, as of the two calls below.
fn put_four_of_rows(columns: &[u32], height: usize, c: usize, out: &mut [u32])
    requires { Sized columns.now out.old height × (c ≤ 6) × Corner by_row (restored columns.now) c (fours height) out.old }
    ensures { Corner by_row (restored columns.now) (c + 4) (fours height) out.new × (length out.new ≡ length out.old) }
{
    let mut above = u32x4::splat(0);
    for q in 0..height / FOUR {
        above = put_square_of_rows(columns, height, FOUR * q, c, above, out);
    }
}

// Row r, from the place 10 * r on.
fn put_row(columns: &[u32], height: usize, r: usize, out: &mut [u32])
    requires { Sized columns.now out.old height × (r < height) × Filled (row_number_at columns.now) (10 * r) out.old }
    ensures { Filled (row_number_at columns.now) (10 * (r + 1)) out.new × (length out.new ≡ length out.old) }
{
    let from = limits::ROW * r;
    for c in 0..COLUMNS {
        let above = above_in(out, from + c);
        out[from + c] = above.wrapping_add(columns[c * height + r]);
    }
}

fn put_rows(columns: &[u32], height: usize, out: &mut [u32])
    requires { Sized columns.now out.old height }
    ensures { out.new ≡ rows_of_columns columns.now }
{
    put_four_of_rows(columns, height, 0, out);
    put_four_of_rows(columns, height, 4, out);
    put_four_of_rows(columns, height, 6, out);
    for r in height / FOUR * FOUR..height {
        put_row(columns, height, r, out);
    }
}

fn same_lengths(source: usize, target: usize) -> bool
    ensures { result ≡ same_lengths source target }
{
    rows_length(source) & (source == target)
}

// How many rows source and target have, where both have as many.
fn height_of(source: &[u32], target: &[u32]) -> Result<usize, Refusal>
    ensures { let same = same_lengths (length source.now) (length target.now) in
        MatchResult result (λ h. (same ≡ true) × Sized source.now target.now h) (λ e. (same ≡ false) × (refusal_number e ≡ bad_length)) }
{
    if same_lengths(source.len(), target.len()) {
        Ok(source.len() / limits::ROW)
    } else {
        Err(Refusal::BadLength)
    }
}

// Turns rows into columns. Where it refuses nothing is changed. It differs from `to_rows` in what it writes alone: one function over a trait with both ways would
// be longer.
pub fn to_columns(rows: &[u32], columns: &mut [u32]) -> Result<(), Refusal>
    ensures { ColumnsIs rows.now columns.old (returned_number result) 0 columns.new }
{
    let height = height_of(rows, columns)?;
    put_columns(rows, height, columns);
    Ok(())
}

// Turns columns into rows. Where it refuses nothing is changed.
pub fn to_rows(columns: &[u32], rows: &mut [u32]) -> Result<(), Refusal>
    ensures { RowsIs columns.now rows.old (returned_number result) 0 rows.new }
{
    let height = height_of(columns, rows)?;
    put_rows(columns, height, rows);
    Ok(())
}
