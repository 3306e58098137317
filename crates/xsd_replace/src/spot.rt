// A text of a row in a schema sheet, measured and replaced. The contracts speak of rows: of what
// the sheet was the packing, and of what it is the packing now.
ghost use Rattle.std.specs.Prelude.{◌≡◌, List, ℕ, ◌+◌, ◌*◌, ◌≤◌, length};
ghost use Rattle.xsd_replace.specs.Spots.{Spot, TextAt, TextRoom, TextReplaced};

use crate::offsets::reoffset;
use buffer::replace::replace_names;
use rows::numbers::{Used, pair_at};
use rows::writer::SheetWriter;
use sheet::limits;

// The bytes of a row's first or second text.
pub fn text_length(rows: &[u32], place: usize, pair: usize) -> usize
    requires { (10 * place + 10 ≤ length rows.now) × (pair ≤ 1) }
    ensures { (names : List ℕ) (used : Used) (x : Spot) → TextAt rows.now names used place pair x → result ≡ length x.old }
{
    let text = pair_at(rows, limits::ROW * place + 2 * pair + 1);
    text.len
}

// Replaces a text of a row. The names behind it move, and the offsets behind it are set anew.
pub fn replace_text(sheet: &mut SheetWriter, place: usize, pair: usize, new: &[u8])
    requires { TextRoom sheet.old place pair (length new.now) }
    ensures { TextReplaced sheet.old place pair new.now sheet.new }
{
    let first = sheet.pair_at(limits::ROW * place + 1);
    let i = limits::ROW * place + 2 * pair + 1;
    let old = sheet.pair_at(i);
    replace_names(sheet.names, sheet.used.names, old.at, old.len, new);
    sheet.rows[i + 1] = new.len() as u32;
    sheet.used.names = reoffset(sheet.rows, place, sheet.used.rows, first.at);
}
