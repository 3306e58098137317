// The open-tag record, changed as each event arrives.
ghost use Rattle.std.specs.Prelude.{◌≡◌, ◌≤◌};
ghost use Rattle.sheet.specs.Limits.{open_tags_limit};
ghost use Rattle.xsd_parser.specs.Kinds.{kind_number};
ghost use Rattle.xsd_progress.specs.Change.{mode_with, ModeAfter, Changed, SeenAfter, EventAfter};

use crate::mode::{close_mode, kind_of, root_after, tag_mode};
use sheet::refusal::Refusal;
use xsd_actions::{Decision, Mode};
use xsd_parser::kinds::Kind;

// The context, the nesting, the open tags and the extension flag of row 0. Root seen, the events done and the rows used stand beside it. This record, Arrived and `change`, to
// which it is lent, are forms of paper 01 that are kept (docs/DECISIONS.md, 36).
#[derive(Clone, Copy)]
pub struct OpenTags {
    pub context: u32,
    pub nesting: u32,
    pub open_tags: u32,
    pub extension: bool,
}

// An event that is counted and decided: its kind, what was decided, the open tags after it, and the sheet's choice. The kind is any number, as the tape has it (`kind_of`).
#[derive(Clone, Copy)]
pub struct Arrival<'a> {
    pub kind: u32,
    pub decision: Result<Decision<'a>, Refusal>,
    pub open_tags: u32,
    pub by_standard: bool,
}

// The mode and the open tags after an event.
#[derive(Clone, Copy)]
pub struct Arrived {
    pub mode: Mode,
    pub open_tags: u32,
}

// The mode after an event of a kind.
fn mode_after(by_standard: bool, kind: Kind, d: Result<Decision, Refusal>, m: Mode) -> Mode
    requires { m.nesting ≤ open_tags_limit }
    ensures { ModeAfter by_standard (kind_number kind) d.entry m result }
{
    match kind {
        Kind::Start => tag_mode(by_standard, true, d, m),
        Kind::Empty => tag_mode(by_standard, false, d, m),
        Kind::Close => close_mode(m),
    }
}

// The mode of a record, root seen given.
pub fn mode_of(o: OpenTags, seen: bool) -> Mode
    ensures { result ≡ mode_with seen o }
{
    Mode {
        context: o.context,
        nesting: o.nesting,
        root_seen: seen,
        extension: o.extension,
    }
}

// A record that is lent is changed as the event arrives.
pub fn change(r: &mut OpenTags, a: Arrival)
    requires { r.old.nesting ≤ open_tags_limit }
    ensures { Changed a.entry r.old r.new }
{
    let kind = kind_of(a.kind);
    let m = mode_after(a.by_standard, kind, a.decision, mode_of(*r, false));
    *r = OpenTags {
        context: m.context,
        nesting: m.nesting,
        open_tags: a.open_tags,
        extension: m.extension,
    };
}

// Whether the root was seen, after an event of a kind.
fn seen_after(kind: Kind, d: Result<Decision, Refusal>, seen: bool) -> bool
    ensures { SeenAfter (kind_number kind) d.entry seen result }
{
    match kind {
        Kind::Start | Kind::Empty => root_after(d, seen),
        Kind::Close => seen,
    }
}

// An event arrives: the record is lent and changed, and root seen stands beside it.
pub fn event_after(a: Arrival, m: Mode, open_tags: u32) -> Arrived
    requires { m.nesting ≤ open_tags_limit }
    ensures { EventAfter a.entry m result }
{
    let mut r = OpenTags {
        context: m.context,
        nesting: m.nesting,
        open_tags,
        extension: m.extension,
    };
    change(&mut r, a);
    let seen = seen_after(kind_of(a.kind), a.decision, m.root_seen);
    Arrived {
        mode: mode_of(r, seen),
        open_tags: r.open_tags,
    }
}
