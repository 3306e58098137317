// All rows one behind the other: a head first closes the one before it.
ghost use Rattle.std.specs.Prelude.{◌++◌, ◌≤◌};
ghost use Rattle.text.specs.Text.{bytes};
ghost use Rattle.xsd_written.specs.ByRows.{rows_text};
ghost use Rattle.xsd_write.specs.Texts.{as_row, row_text};
ghost use Rattle.xsd_write.specs.Parts.{rows_of_part, part_text};
ghost use Rattle.xsd_write.specs.Puts.{Puts, Writes};

use crate::part::Row;
use crate::put::Writer;
use rows::part::SheetPart;
use xsd_good::forms::row::{head_after, is_head};

impl Writer<'_> {
    fn put_row(&mut self, row: Row, pending: u32)
        ensures { Writes (row_text pending (as_row row.entry)) self.old self.new }
    {
        if is_head(row.numbers.tag) {
            self.put_close(pending);
            self.put_head(row);
        } else {
            self.put_child(row);
        }
    }

    // The rows of the items, from row 2 up to the end.
    fn put_rows(&mut self, part: &SheetPart)
        ensures { Writes (rows_text 0 (rows_of_part part.now 2)) self.old self.new }
    {
        let mut pending: u32 = 0;
        for place in 2..part.end {
            let row = Row::at(part, place);
            self.put_row(row, pending);
            pending = head_after(pending, row.numbers.tag);
        }
        self.put_close(pending);
    }

    // As short as `put_any`, which puts other parts: nothing is the same in them but that there are three.
    fn put_body(&mut self, part: &SheetPart)
        ensures { Writes (bytes ">" ++ (rows_text 0 (rows_of_part part.now 2) ++ bytes "</xs:schema>")) self.old self.new }
    {
        self.put(b">");
        self.put_rows(part);
        self.put(b"</xs:schema>");
    }
}

// The whole into a lent buffer: the offset behind it, past the buffer's end where it has no room.
pub fn put_schema(out: &mut [u8], part: &SheetPart) -> usize
    requires { 2 ≤ part.now.end }
    ensures { Puts (part_text part.now) 0 out.old result out.new }
{
    let row = Row::at(part, 1);
    let mut writer = Writer { out, at: 0 };
    writer.put_value(
        b"<xs:schema xmlns:xs=\"http://www.w3.org/2001/XMLSchema\" targetNamespace=",
        row.first_text(),
    );
    writer.put_body(part);
    writer.at
}
