// The rows of the facets that are counts, added to a schema sheet.
// `RowRoom` is a clause and no ghost field: it is about the next row, and need not hold behind it.
ghost use Rattle.std.specs.Prelude.{[], ◌/◌, ◌%◌, ◌^◌};
ghost use Rattle.sheet.specs.Rows.{row};
ghost use Rattle.rows.specs.Append.{RowRoom, Appended};

use crate::numbers::{RowNumbers, halves};
use crate::writer::SheetWriter;
use number::{CharacterCount, DigitCount};

impl SheetWriter<'_> {
    // Adds the row of a count: its low and high 32 bits.
    fn append_count(&mut self, tag: u32, count: u64)
        requires { RowRoom self.old 0 }
        ensures { Appended (row tag [] (count % 2 ^ 32) (count / 2 ^ 32) 0) self.old self.new }
    {
        let (a, b) = halves(count);
        self.append_bare(RowNumbers { tag, a, b, c: 0 });
    }

    // Adds the row of a length facet.
    pub fn append_characters(&mut self, tag: u32, n: CharacterCount)
        requires { RowRoom self.old 0 }
        ensures { Appended (row tag [] (n.0 % 2 ^ 32) (n.0 / 2 ^ 32) 0) self.old self.new }
    {
        self.append_count(tag, n.0);
    }

    // Adds the row of a digits facet.
    pub fn append_digits(&mut self, tag: u32, n: DigitCount)
        requires { RowRoom self.old 0 }
        ensures { Appended (row tag [] n.0 0 0) self.old self.new }
    {
        self.append_count(tag, u64::from(n.0));
    }
}
