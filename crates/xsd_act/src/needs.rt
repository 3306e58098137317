// How many rows and bytes of names a schema sheet uses after a decision is done to it, so that the
// caller asks for room before anything is stored.
ghost use Rattle.std.specs.Prelude.{◌≡◌, ◌^◌, ◌≤◌, ◌<◌, length};
ghost use Rattle.text.specs.Text.{join};
ghost use Rattle.sheet.specs.Limits.{names_limit};
ghost use Rattle.xsd_parser.specs.Handlers.{ok};
ghost use Rattle.rows.specs.Texts.{listed};
ghost use Rattle.xsd_actions.specs.Actions.{Action};
ghost use Rattle.xsd_actions.specs.Answers.{new_row, decision};
ghost use Rattle.xsd_act.specs.Ready.{ReadyFor};
ghost use Rattle.xsd_act.specs.Needs.{Small, RowNeeded, HeadSeen, HeadNeeded, TextSeen, TextNeeded, Needed};

use rows::numbers::Used;
use sheet::refusal::Refusal;
use xsd_actions::{Decision, NewContent, NewRow};
use xsd_replace::head::name_end;
use xsd_replace::spot::text_length;

// The bytes of a text that may be there.
fn bytes_of(text: Option<&[u8]>) -> usize
    ensures bytes { result ≡ length (join (listed text.entry)) }
    ensures small { result < 2 ^ 63 }
{
    text.unwrap_or(b"").len()
}

// What is used with one row more, whose texts have so many bytes. A sum that is too great for a usize has no room in any names.
fn with_row(used: Used, bytes: usize) -> Used
    requires { used.rows ≤ 4096 }
    ensures { RowNeeded used bytes result }
{
    Used {
        rows: used.rows + 1,
        names: used.names.saturating_add(bytes),
    }
}

// What is used with the row that a decision adds.
fn needed_row(used: Used, n: NewRow) -> Used
    requires { used.rows ≤ 4096 }
    ensures { RowNeeded used (length (join (new_row n.entry).texts)) result }
{
    match n.first {
        Some(first) => with_row(used, first.len() + bytes_of(n.second)),
        None => with_row(used, 0),
    }
}

// What is used after the open type's content is replaced: its head is the last row, the name kept.
fn needed_content(rows: &[u32], used: Used, head: usize, n: NewContent) -> Used
    requires head_seen { HeadSeen rows.now used head }
    requires small { Small used }
    ensures { HeadNeeded rows.now used head (length (join (listed n.entry.second))) result }
{
    let end = name_end(rows, head);
    Used {
        rows: head + 1,
        names: end + bytes_of(n.second),
    }
}

// What is used after a text of a row is replaced by another.
fn needed_text(rows: &[u32], used: Used, place: usize, pair: usize, new: &[u8]) -> Used
    requires text_seen { TextSeen rows.now used place pair }
    requires names { used.names ≤ names_limit }
    ensures { TextNeeded rows.now used place pair (length new.now) result }
{
    let old = text_length(rows, place, pair);
    Used {
        rows: used.rows,
        names: used.names - old + new.len(),
    }
}

// How many rows and bytes of names are used after what was decided is done. A refusal can be asked about too (docs/DECISIONS.md, 196).
pub fn needed(rows: &[u32], used: Used, head: usize, d: Result<Decision, Refusal>) -> Used
    requires ready { (a : Action) → decision d ≡ ok a → ReadyFor rows.now used head a }
    requires small { Small used }
    ensures { Needed rows.now used head (decision d.entry) result }
{
    let Ok(d) = d else {
        return used;
    };
    match d {
        Decision::Keep => used,
        Decision::Root(namespace) => needed_text(rows, used, 1, 0, namespace),
        Decision::OpenSimple(n) => with_row(used, n.name.len()),
        Decision::OpenComplex(n) => with_row(used, n.name.len()),
        Decision::Add(n) => needed_row(used, n),
        Decision::Characters(_) => with_row(used, 0),
        Decision::Digits(_) => with_row(used, 0),
        Decision::Content(n) => needed_content(rows, used, head, n),
        Decision::Base(base) => needed_text(rows, used, head, 1, base),
    }
}
