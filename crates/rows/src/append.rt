// A row with its texts added to a schema sheet. The contract speaks of rows: of what the sheet was
// the packing, and of what it is the packing now.
ghost use Rattle.std.specs.Prelude.{[], ◌∷◌, ◌≤◌, length};
ghost use Rattle.text.specs.Text.{join};
ghost use Rattle.sheet.specs.Rows.{row};
ghost use Rattle.rows.specs.Texts.{used_texts, used_length, listed};
ghost use Rattle.rows.specs.Packing.{row_of};
ghost use Rattle.rows.specs.Append.{RowRoom, Appended};

use crate::numbers::{RowNumbers, Used};
use crate::row::set_row;
use crate::texts::put_texts;
use crate::writer::SheetWriter;

impl SheetWriter<'_> {
    // Adds a row that uses so many pairs: the texts and the number of those that count, as `put_texts` and `set_row` take them.
    fn append_pairs(&mut self, n: RowNumbers, first: &[u8], second: &[u8], pairs: usize)
        requires room { RowRoom self.old (used_length pairs (length first.now) (length second.now)) }
        requires pairs { pairs ≤ 2 }
        ensures { Appended (row_of n (used_texts pairs first.now second.now)) self.old self.new }
    {
        let place = self.used.rows;
        let at = self.used.names;
        set_row(self.rows, place, n, pairs, at, first.len(), second.len());
        let end = put_texts(self.names, at, first, second, pairs);
        self.used = Used {
            rows: place + 1,
            names: end,
        };
    }

    // Adds a row that has no text.
    pub fn append_bare(&mut self, n: RowNumbers)
        requires { RowRoom self.old 0 }
        ensures { Appended (row n.tag [] n.a n.b n.c) self.old self.new }
    {
        self.append_pairs(n, b"", b"", 0);
    }

    // Adds a row with a text, or two.
    pub fn append(&mut self, n: RowNumbers, first: &[u8], second: Option<&[u8]>)
        requires { RowRoom self.old (length (join (first.now ∷ listed second))) }
        ensures { Appended (row n.tag (first.now ∷ listed second.entry) n.a n.b n.c) self.old self.new }
    {
        match second {
            Some(text) => self.append_pairs(n, first, text, 2),
            None => self.append_pairs(n, first, b"", 1),
        }
    }
}
