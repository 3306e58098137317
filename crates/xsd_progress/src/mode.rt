// The mode of the reader and the open tags after an event.
// The bound on nesting is a clause: a `Mode` is read from sheets that nobody has judged (xsd_actions).
ghost use Rattle.std.specs.Prelude.{◌≡◌, ◌≤◌, Ok};
ghost use Rattle.sheet.specs.Limits.{open_tags_limit};
ghost use Rattle.xsd_parser.specs.Event.{Tag, Event};
ghost use Rattle.xsd_parser.specs.Kinds.{kind_number};
ghost use Rattle.xsd_parser.specs.Handlers.{ok};
ghost use Rattle.xsd_parser.specs.Step.{tags_after};
ghost use Rattle.xsd_actions.specs.Actions.{Action, context_after, opens_type, raises, root_after, flag_after, tag_mode, close_mode};
ghost use Rattle.xsd_actions.specs.Answers.{decision};
ghost use Rattle.xsd_progress.specs.Modes.{action_of, nesting_of};
ghost use Rattle.xsd_progress.specs.Answers.{tags, event_as};

use sheet::limits;
use sheet::refusal::Refusal;
use xsd_actions::{Decision, Mode};
use xsd_parser::kinds::Kind;
use xsd_types::contexts;

// Only a start enters the schema; a type that is opened is the context. `start` is passed, as in the definition: one arm of four asks for it.
#[tactic(auto, unfolding(xsd_actions::specs::Actions::context_after))]
fn context_after(start: bool, d: Result<Decision, Refusal>, context: u32) -> u32
    ensures { result ≡ context_after start (action_of d.entry) context }
{
    match d {
        Ok(Decision::Root(_)) if start => contexts::SCHEMA,
        Ok(Decision::OpenSimple(_)) => contexts::SIMPLE_TYPE,
        Ok(Decision::OpenComplex(_)) => contexts::COMPLEX_TYPE,
        _ => context,
    }
}

// Whether the decision opens a type.
#[tactic(auto, unfolding(xsd_actions::specs::Actions::opens_type))]
fn opens_type(d: Result<Decision, Refusal>) -> bool
    ensures { result ≡ opens_type (action_of d.entry) }
{
    matches!(d, Ok(Decision::OpenSimple(_) | Decision::OpenComplex(_)))
}

// A start raises the nesting where a type was open before it, and by the standard in the schema too, unless it opens a type there.
fn raises(by_standard: bool, d: Result<Decision, Refusal>, context: u32) -> bool
    ensures { result ≡ raises by_standard (action_of d.entry) context }
{
    (contexts::SIMPLE_TYPE <= context)
        | ((context == contexts::SCHEMA) & !opens_type(d) & by_standard)
}

// One tag deeper where the start raises the nesting.
fn nesting_after(raised: bool, nesting: u32) -> u32
    requires { nesting ≤ open_tags_limit }
    ensures { result ≡ nesting_of raised nesting }
{
    nesting + u32::from(raised)
}

// Whether the root was seen, after a start or an empty tag.
#[tactic(auto, unfolding(xsd_actions::specs::Actions::root_after))]
pub fn root_after(d: Result<Decision, Refusal>, seen: bool) -> bool
    ensures { result ≡ root_after (action_of d.entry) seen }
{
    seen | matches!(d, Ok(Decision::Root(_)))
}

// Another content starts without the flag; the base of simple content sets it.
#[tactic(auto, unfolding(xsd_actions::specs::Actions::flag_after))]
fn flag_after(d: Result<Decision, Refusal>, context: u32, flag: bool) -> bool
    ensures { result ≡ flag_after (action_of d.entry) context flag }
{
    match d {
        Ok(Decision::Content(_)) => false,
        Ok(Decision::Base(_)) => context == contexts::COMPLEX_TYPE,
        _ => flag,
    }
}

// The mode after a start (start is true) or an empty tag. One function, as in the definition: two would be equal but for the nesting and one arm of the context.
pub fn tag_mode(by_standard: bool, start: bool, d: Result<Decision, Refusal>, m: Mode) -> Mode
    requires { m.nesting ≤ open_tags_limit }
    ensures { (a : Action) → decision d.entry ≡ ok a → result ≡ tag_mode by_standard start a m }
{
    let raised = start & raises(by_standard, d, m.context);
    Mode {
        context: context_after(start, d, m.context),
        nesting: nesting_after(raised, m.nesting),
        root_seen: root_after(d, m.root_seen),
        extension: flag_after(d, m.context, m.extension),
    }
}

// The mode after a close.
pub fn close_mode(m: Mode) -> Mode
    ensures { result ≡ close_mode m }
{
    if m.nesting != 0 {
        return Mode {
            nesting: m.nesting - 1,
            ..m
        };
    }
    if m.context <= contexts::SCHEMA {
        return Mode {
            context: contexts::NONE,
            ..m
        };
    }
    Mode {
        context: contexts::SCHEMA,
        extension: false,
        ..m
    }
}

fn start_tags(open_tags: u32) -> Result<u32, Refusal>
    ensures { (t : Tag) → tags result ≡ tags_after (Event.start t) open_tags }
{
    if open_tags < limits::OPEN_TAGS {
        Ok(open_tags + 1)
    } else {
        Err(Refusal::TooManyOpen)
    }
}

fn close_tags(open_tags: u32) -> Result<u32, Refusal>
    ensures { tags result ≡ tags_after Event.close open_tags }
{
    if open_tags == 0 {
        Err(Refusal::NoTagOpen)
    } else {
        Ok(open_tags - 1)
    }
}

// The kind that an event of a number has: a number that is no kind's stands for an empty tag.
pub fn kind_of(number: u32) -> Kind
    ensures { (t : Tag) → event_as (kind_number result) t ≡ event_as number t }
{
    Kind::try_from(number).unwrap_or(Kind::Empty)
}

// How many tags are open after an event of a kind, or the refusal.
pub fn tags_of(kind: Kind, open_tags: u32) -> Result<u32, Refusal>
    ensures { (t : Tag) → tags result ≡ tags_after (event_as (kind_number kind) t) open_tags }
{
    match kind {
        Kind::Start => start_tags(open_tags),
        Kind::Empty => Ok(open_tags),
        Kind::Close => close_tags(open_tags),
    }
}

// The same by any number, as the definition has it.
pub fn tags_after(kind: u32, open_tags: u32) -> Result<u32, Refusal>
    ensures { (t : Tag) → tags result ≡ tags_after (event_as kind t) open_tags }
{
    tags_of(kind_of(kind), open_tags)
}
