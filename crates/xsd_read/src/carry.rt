// An event that is counted and decided, done to a schema sheet where it has room.
ghost use Rattle.std.specs.Prelude.{◌≡◌, ◌≤◌};
ghost use Rattle.sheet.specs.Limits.{events_limit, open_tags_limit};
ghost use Rattle.xsd_read.specs.Due.{open_head_after, StandsAfter, DueRoom, Stepped};

use rows::numbers::has_room;
use rows::writer::SheetWriter;
use sheet::refusal::Refusal;
use xsd_act::needs;
use xsd_actions::Decision;
use xsd_progress::Progress;
use xsd_progress::open_tags::{Arrival, event_after};
use xsd_types::contexts;

// The row of the open type's head after an event: a type that an event opens stands behind the rows used before it.
fn open_head_after(p: Progress, rows_used: usize) -> usize
    ensures { result ≡ open_head_after p rows_used }
{
    if p.mode.context < contexts::SIMPLE_TYPE {
        rows_used
    } else {
        p.head
    }
}

// Where the reading stands after an event: the record is changed and the event counted.
fn stands_after(p: Progress, a: Arrival, head: usize) -> Progress
    requires { (p.mode.nesting ≤ open_tags_limit) × (p.events ≤ events_limit) }
    ensures { StandsAfter p a.entry head result }
{
    let after = event_after(a, p.mode, p.open_tags);
    Progress {
        mode: after.mode,
        events: p.events + 1,
        open_tags: after.open_tags,
        by_standard: p.by_standard,
        head,
    }
}

// What was decided is done, and where the reading stands after it; or 11 where the rows and names after it have no room. Where the sheet is kept, as for
// most events, it has room.
pub fn carry_out(sheet: &mut SheetWriter, p: Progress, a: Arrival) -> Result<Progress, Refusal>
    requires { DueRoom sheet.old p a }
    ensures { Stepped sheet.old p a.entry result sheet.new }
{
    let head = open_head_after(p, sheet.used.rows);
    let after = stands_after(p, a, head);
    if let Ok(Decision::Keep) = a.decision {
        return Ok(after);
    }
    let need = needs::needed(sheet.as_rows(), sheet.used, p.head, a.decision);
    if !has_room(need, sheet.rows.len(), sheet.names.len()) {
        return Err(Refusal::NoRoom);
    }
    xsd_act::act(sheet, p.head, a.decision);
    Ok(after)
}
