// The rows and the head of a decision, stored in a schema sheet.
ghost use Rattle.std.specs.Prelude.{◌∷◌, ◌+◌, ◌*◌, length, get_or};
ghost use Rattle.text.specs.Text.{join};
ghost use Rattle.sheet.specs.Rows.{row};
ghost use Rattle.rows.specs.Texts.{listed};
ghost use Rattle.rows.specs.Append.{RowRoom, Appended};
ghost use Rattle.xsd_replace.specs.Head.{HeadRoom, HeadReplaced};
ghost use Rattle.xsd_actions.specs.Answers.{new_row};
ghost use Rattle.xsd_act.specs.Acts.{content_numbers};

use rows::numbers::{RowNumbers, numbers_at};
use rows::writer::SheetWriter;
use xsd_actions::{NewContent, NewRow, NewType};
use xsd_replace::head::replace_head;

// Adds the head of a type that has a name, and perhaps a base.
pub fn open_type(sheet: &mut SheetWriter, tag: u32, n: NewType, base: Option<&[u8]>)
    requires { RowRoom sheet.old (length (join (n.name.now ∷ listed base))) }
    ensures { Appended (row tag (n.entry.name.now ∷ listed base.entry) 0 0 n.entry.event) sheet.old sheet.new }
{
    let numbers = RowNumbers {
        tag,
        a: 0,
        b: 0,
        c: n.event,
    };
    sheet.append(numbers, n.name, base);
}

// Adds the row that a decision gives.
#[tactic(auto, unfolding(sheet::specs::Rows::row, xsd_actions::specs::Answers::new_row))]
pub fn add_row(sheet: &mut SheetWriter, n: NewRow)
    requires { RowRoom sheet.old (length (join (new_row n).texts)) }
    ensures { Appended (new_row n.entry) sheet.old sheet.new }
{
    let numbers = RowNumbers {
        tag: n.tag,
        a: n.a,
        b: n.b,
        c: n.c,
    };
    match n.first {
        Some(first) => sheet.append(numbers, first, n.second),
        None => sheet.append_bare(numbers),
    }
}

// Replaces the open type's content by another one. The event's number stays that of the name.
pub fn put_content(sheet: &mut SheetWriter, head: usize, n: NewContent)
    requires { HeadRoom sheet.old head (length (join (listed n.second))) }
    ensures { HeadReplaced sheet.old head (content_numbers n.entry (get_or sheet.old.rows.now (10 * head + 9) 0)) (listed n.entry.second) sheet.new }
{
    let old = numbers_at(sheet.as_rows(), head);
    let numbers = RowNumbers {
        tag: n.tag,
        a: n.a,
        b: 0,
        c: old.c,
    };
    replace_head(sheet, head, numbers, n.second);
}
