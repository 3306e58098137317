// The rows that are kept, copied with their texts behind each other. The texts of a row stand side by side in the names, so they are copied as one.
// That there is a mark for each row is a clause: rows and marks are lent apart, to callers too, and a part is of rows of any length.
ghost use Rattle.std.specs.Prelude.{◌≡◌, true, List, [], ◌∷◌, map, ℕ, ◌+◌, ◌-◌, ◌*◌, ◌≤◌, ◌<◌, length};
ghost use Rattle.text.specs.Text.{between};
ghost use Rattle.sheet.specs.Rows.{Row};
ghost use Rattle.sheet.specs.Limits.{names_limit};
ghost use Rattle.rows.specs.Ten.{as_ten};
ghost use Rattle.ir_types.specs.Form.{count};
ghost use Rattle.ir_append.specs.Grows.{Grows};
ghost use Rattle.ir_reduce.specs.Places.{row_at, keeps, kept_rows};
ghost use Rattle.ir_reduce.specs.Copy.{bytes_of, moved_numbers};
ghost use Rattle.ir_reduce.specs.Parts.{part_row, TextsStand, part_kept};

use buffer::copy_text;
use graph_form::row::{is_type, used_pairs};
use ir_append::offset;
use ir_append::writer::GraphWriter;
use rows::form::in_range;
use rows::numbers::{Used, wide};
use rows::part::SheetPart;
use rows::parts::part_of;
use rows::row::put_row;
use rows::ten::Ten;
use sheet::limits;

// How many bytes a row's texts have.
fn bytes_of(t: Ten) -> usize
    ensures { result ≡ bytes_of (as_ten t) }
{
    wide(t.len0) + wide(t.len1) + wide(t.len2)
}

// The row with its texts in the names from `at`. Beside `ir_append`'s row of a recipe and `rows::row::row_of`: which pairs are used, each tells by its own means, and
// for one builder it would have to be said anew, pair by pair.
fn moved_row(t: Ten, used: usize, at: usize) -> [u32; 10]
    requires { at + bytes_of (as_ten t) ≤ names_limit }
    ensures { result ≡ moved_numbers (as_ten t) used at }
{
    let second = at + wide(t.len0);
    let third = second + wide(t.len1);
    [
        t.tag,
        offset(1 <= used, at),
        t.len0,
        offset(2 <= used, second),
        t.len1,
        offset(3 <= used, third),
        t.len2,
        t.a,
        t.b,
        t.c,
    ]
}

// Adds the row at a place with its texts, or answers `None` where there is no room. Not a method of the writer: what it copies is a part's row, and here the texts'
// length is known before one is written, where `append_spelled` learns it by writing them.
fn append_same(writer: &mut GraphWriter, part: &SheetPart, place: usize) -> Option<()>
    requires { TextsStand part.now place × (place < part.now.end) }
    ensures { Grows writer.old (part_row part.now place ∷ []) writer.new result }
{
    let t = part.ten(place);
    let n = writer.used.rows;
    let at = writer.used.names;
    let size = bytes_of(t);
    if writer.rows.len() < limits::ROW * n + limits::ROW {
        return None;
    }
    if writer.names.len() - at < size {
        return None;
    }
    let row = moved_row(t, used_pairs(t.tag, t.a), at);
    put_row(writer.rows, n, row);
    copy_text(writer.names, at, part_of(part.names, wide(t.at0), size));
    writer.used = Used {
        rows: n + 1,
        names: at + size,
    };
    Some(())
}

// Whether a row is kept: a head by its mark, another row with the row before it.
fn keeps_row(before: bool, tag: u32, mark: u8) -> bool
    ensures { result ≡ keeps before tag mark }
{
    if is_type(tag) { mark != 0 } else { before }
}

// The rows that are kept, from row 1 on, are added, or `None` is answered where there is no room.
pub fn put_kept(writer: &mut GraphWriter, part: &SheetPart, marks: &[u8]) -> Option<()>
    requires { (part.now.end ≤ length marks.now) × (1 ≤ part.now.end) × ((p : ℕ) → 0 < p → p < part.now.end → TextsStand part.now p) }
    ensures { Grows writer.old (part_kept part.now marks.now) writer.new result }
{
    let mut kept = true;
    for place in 1..part.end {
        kept = keeps_row(kept, part.tag(place), marks[place]);
        if kept {
            append_same(writer, part, place)?;
        }
    }
    Some(())
}

// How many of the rows that are kept have a tag from low to high. No `filter` with `count`: whether a row is kept goes by the row before it.
pub fn count_kept(part: &SheetPart, marks: &[u8], low: u32, high: u32) -> usize
    requires { (part.now.end ≤ length marks.now) × (1 ≤ part.now.end) × (part.now.end ≤ 4096) }
    ensures fact { (names : List ℕ) → result ≡ count (between low high) (map (λ (r : Row). r.tag) (kept_rows (row_at part.now.rows.now names) marks.now true 1 (part.now.end - 1))) }
    ensures upper_bound { result ≤ part.now.end }
{
    let mut n = 0;
    let mut kept = true;
    for place in 1..part.end {
        let tag = part.tag(place);
        kept = keeps_row(kept, tag, marks[place]);
        if kept & in_range(low, high, tag) {
            n += 1;
        }
    }
    n
}
