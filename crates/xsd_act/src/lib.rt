// What was decided for an event, done to a schema sheet: by the writer of a row, of the open type's head, or of a text. `needs`: the rows and
// names used after it; `put`: the rows and the head of a decision.
#![tactic(auto)]

pub mod needs;
pub mod put;

ghost use Rattle.xsd_actions.specs.Answers.{decision};
ghost use Rattle.xsd_act.specs.Acts.{ActRoom, Done};

use crate::put::{add_row, open_type, put_content};
use rows::writer::SheetWriter;
use sheet::refusal::Refusal;
use xsd_actions::Decision;
use xsd_replace::spot::replace_text;
use xsd_types::tags;

// Does what was decided to the sheet. The target namespace is the first text of row 1, the base the second of the head; a simple type that is opened has a
// base that is still empty. A refusal can be handed on too, as to `needed` (docs/DECISIONS.md, 196).
pub fn act(sheet: &mut SheetWriter, head: usize, d: Result<Decision, Refusal>)
    requires { ActRoom sheet.old head (decision d) }
    ensures { Done sheet.old head (decision d.entry) sheet.new }
{
    let Ok(d) = d else {
        return;
    };
    match d {
        Decision::Keep => {}
        Decision::Root(namespace) => replace_text(sheet, 1, 0, namespace),
        Decision::OpenSimple(n) => open_type(sheet, tags::SIMPLE_TYPE, n, Some(b"")),
        Decision::OpenComplex(n) => open_type(sheet, tags::NO_CONTENT, n, None),
        Decision::Add(n) => add_row(sheet, n),
        Decision::Characters(f) => sheet.append_characters(f.tag, f.count),
        Decision::Digits(f) => sheet.append_digits(f.tag, f.count),
        Decision::Content(n) => put_content(sheet, head, n),
        Decision::Base(base) => replace_text(sheet, head, 1, base),
    }
}
