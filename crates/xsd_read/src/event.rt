// One event on a schema sheet, its refusals in the paper's order.
ghost use Rattle.std.specs.Prelude.{◌≡◌};
ghost use Rattle.xsd_parser.specs.Seen.{seen};
ghost use Rattle.xsd_parser.specs.Kinds.{close_kind};
ghost use Rattle.tape.specs.Pairs.{TagInside, tag_at};
ghost use Rattle.tape.specs.Lookup.{seen_at};
ghost use Rattle.tape.specs.Answers.{record_event};
ghost use Rattle.xsd_actions.specs.Decided.{decided};
ghost use Rattle.xsd_actions.specs.Answers.{decision};
ghost use Rattle.xsd_read.specs.Events.{EventRoom, EventTaken};

use crate::carry::carry_out;
use rows::writer::SheetWriter;
use sheet::limits;
use sheet::refusal::Refusal;
use tape::TagRecord;
use tape::attributes::SeenTag;
use tape::view::{View, event_marks, in_view};
use xsd_actions::{Decision, Mode};
use xsd_parser::kinds::Kind;
use xsd_progress::Progress;
use xsd_progress::head::head_tag;
use xsd_progress::mode::tags_after;
use xsd_progress::open_tags::Arrival;

// What is seen of a record's tag, by its own marks.
fn seen_of<'a, 'b>(v: View<'a, 'b>, t: TagRecord) -> SeenTag<'a, 'b>
    requires { TagInside v.text.now v.marks.now t.pairs t.count }
    ensures { seen_at result ≡ seen (tag_at v.entry.text.now v.entry.marks.now t.pairs t.count) }
{
    in_view(v.text, event_marks(v.marks, t.pairs, t.count), t.count)
}

// What is to be done for an event. It is the run's event of this number, and what is seen of its tag is looked up once.
fn decide_event<'a>(
    v: View<'a, '_>,
    t: TagRecord,
    m: Mode,
    head: u32,
    event: u32,
) -> Result<Decision<'a>, Refusal>
    requires { (t.kind ≡ close_kind → ⊥) → TagInside v.text.now v.marks.now t.pairs t.count }
    ensures { decision result ≡ decided event (record_event v.entry.text.now v.entry.marks.now t) m head }
{
    if t.kind == Kind::Close as u32 {
        return Ok(xsd_decide::on_close(m, head));
    }
    let seen = seen_of(v, t);
    if t.kind == Kind::Start as u32 {
        xsd_decide::on_start(&seen, m, head, event)
    } else {
        xsd_decide::on_empty(&seen, m, head, event)
    }
}

// The event is counted (8, then 6 or 7), decided (9, 10), and done where it has room (11).
pub fn on_event(
    sheet: &mut SheetWriter,
    v: View<'_, '_>,
    t: TagRecord,
    p: Progress,
) -> Result<Progress, Refusal>
    requires event_room { EventRoom sheet.old p (record_event v.text.now v.marks.now t) }
    requires tag_inside { (t.kind ≡ close_kind → ⊥) → TagInside v.text.now v.marks.now t.pairs t.count }
    ensures { EventTaken sheet.old p (record_event v.entry.text.now v.entry.marks.now t) result sheet.new }
{
    if limits::EVENTS <= p.events {
        return Err(Refusal::TooManyEvents);
    }
    let open_tags = tags_after(t.kind, p.open_tags)?;
    let head = head_tag(sheet.as_rows(), p.mode.context, p.head);
    let decision = decide_event(v, t, p.mode, head, p.events)?;
    let a = Arrival {
        kind: t.kind,
        decision: Ok(decision),
        open_tags,
        by_standard: p.by_standard,
    };
    carry_out(sheet, p, a)
}
