// The open type's row in a schema sheet, replaced. The contracts speak of rows: of what the sheet
// was the packing, and of what it is the packing now.
ghost use Rattle.std.specs.Prelude.{◌≡◌, List, ℕ, ◌+◌, ◌-◌, ◌*◌, ◌≤◌, length, replicate};
ghost use Rattle.std.proofs.Math.Seq.{paste};
ghost use Rattle.text.specs.Text.{Text, join};
ghost use Rattle.sheet.specs.Rows.{Row, names_of};
ghost use Rattle.rows.specs.Texts.{used_texts, used_length, listed};
ghost use Rattle.rows.specs.Writer.{SameBuffers};
ghost use Rattle.xsd_replace.specs.Head.{HeadAt, HeadRoom, HeadReplaced};

use rows::numbers::{RowNumbers, Used, pair_at};
use rows::row::set_row;
use rows::texts::put_texts;
use rows::writer::SheetWriter;
use sheet::limits;

// The place behind the first text of a row: where the names of a replaced head's second text go.
pub fn name_end(rows: &[u32], place: usize) -> usize
    requires { 10 * place + 10 ≤ length rows.now }
    ensures { (names : List ℕ) (used : Used) (z : List ℕ) (rs : List Row) (name : Text) → HeadAt rows.now names used place z rs name → result ≡ length (names_of rs) + length name }
{
    let first = pair_at(rows, limits::ROW * place + 1);
    first.at + first.len
}

// Frees the rows from `place` on, and the names from `end` on.
fn cut(sheet: &mut SheetWriter, place: usize, end: usize)
    requires rows { (place ≤ sheet.old.used.rows) × (10 * sheet.old.used.rows ≤ length sheet.old.rows.now) }
    requires names { (end ≤ sheet.old.used.names) × (sheet.old.used.names ≤ length sheet.old.names.now) }
    ensures same { SameBuffers sheet.old sheet.new }
    ensures rows { sheet.new.rows.now ≡ paste sheet.old.rows.now (10 * place) (replicate (10 * (sheet.old.used.rows - place)) 0) (10 * (sheet.old.used.rows - place)) }
    ensures names { sheet.new.names.now ≡ paste sheet.old.names.now end (replicate (sheet.old.used.names - end) 0) (sheet.old.used.names - end) }
{
    sheet.rows[limits::ROW * place..limits::ROW * sheet.used.rows].fill(0);
    sheet.names[end..sheet.used.names].fill(0);
}

// Gives the open type's row other numbers and so many pairs, keeps its name, and frees the rows and names behind it. The text and the number of pairs, as `set_row` and
// `put_texts` take them: with an Option here each of the two would be handed what a `match` of its own makes of it.
fn set_head(sheet: &mut SheetWriter, place: usize, n: RowNumbers, second: &[u8], pairs: usize)
    requires head { HeadRoom sheet.old place (used_length (pairs - 1) (length second.now) (length second.now)) }
    requires pairs { (1 ≤ pairs) × (pairs ≤ 2) }
    ensures { HeadReplaced sheet.old place n (used_texts (pairs - 1) second.now second.now) sheet.new }
{
    let name = sheet.pair_at(limits::ROW * place + 1);
    let end = name.at + name.len;
    cut(sheet, place, end);
    set_row(sheet.rows, place, n, pairs, name.at, name.len, second.len());
    let names_end = put_texts(sheet.names, end, second, second, pairs - 1);
    sheet.used = Used {
        rows: place + 1,
        names: names_end,
    };
}

// Gives the open type's row other numbers and perhaps a second text, keeps its name, and frees the rows and names behind it.
pub fn replace_head(sheet: &mut SheetWriter, place: usize, n: RowNumbers, second: Option<&[u8]>)
    requires { HeadRoom sheet.old place (length (join (listed second))) }
    ensures { HeadReplaced sheet.old place n (listed second.entry) sheet.new }
{
    match second {
        Some(text) => set_head(sheet, place, n, text, 2),
        None => set_head(sheet, place, n, b"", 1),
    }
}
