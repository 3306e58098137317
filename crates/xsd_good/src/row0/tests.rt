// The tests of row 0: "A sheet is good if".
ghost use Rattle.std.specs.Prelude.{◌≡◌};
ghost use Rattle.xsd_types.specs.Good.{row0_form, limits, root_test, nesting_test, context_test, extension_test};
ghost use Rattle.xsd_good.specs.Row0.{as_row0};

use crate::row0::Row0;
use rows::form::{in_range, is_flag};
use rows::numbers::wide;
use sheet::limits;
use xsd_types::{contexts, tags};

#[tactic(auto, unfolding(xsd_types::specs::Good::row0_form, sheet::specs::Form::is_flag))]
pub fn row0_form(z: Row0) -> bool
    ensures { result ≡ row0_form (as_row0 z) }
{
    (z.first == 0)
        & (z.context <= contexts::COMPLEX_TYPE)
        & is_flag(z.root_seen)
        & is_flag(z.extension)
        & is_flag(z.choice)
}

#[tactic(auto, unfolding(xsd_types::specs::Good::limits))]
pub fn limits(z: Row0) -> bool
    ensures { result ≡ limits (as_row0 z) }
{
    (z.events <= limits::EVENTS) & (z.open_tags <= limits::OPEN_TAGS)
}

#[tactic(auto, unfolding(xsd_types::specs::Good::root_test))]
pub fn root_test(z: Row0) -> bool
    ensures { result ≡ root_test (as_row0 z) }
{
    (z.root_seen == 1) | ((z.context == contexts::NONE) & (z.rows_used == 2) & (z.names_used == 0))
}

#[tactic(auto, unfolding(xsd_types::specs::Good::nesting_test, xsd_types::specs::Good::nesting_zero, xsd_types::specs::Good::open_tags_test))]
pub fn nesting_test(z: Row0) -> bool
    ensures { result ≡ nesting_test (as_row0 z) }
{
    match z.context {
        contexts::NONE => z.nesting == 0,
        contexts::SCHEMA => ((z.choice == 1) | (z.nesting == 0)) & (z.nesting < z.open_tags),
        _ => wide(z.nesting) + 2 <= wide(z.open_tags),
    }
}

#[tactic(auto, unfolding(xsd_types::specs::Good::context_test))]
pub fn context_test(context: u32, head: u32) -> bool
    ensures { result ≡ context_test context head }
{
    match context {
        contexts::SIMPLE_TYPE => head == tags::SIMPLE_TYPE,
        contexts::COMPLEX_TYPE => in_range(tags::SEQUENCE, tags::NO_CONTENT, head),
        _ => head != tags::NO_CONTENT,
    }
}

#[tactic(auto, unfolding(xsd_types::specs::Good::extension_test))]
pub fn extension_test(z: Row0, head: u32) -> bool
    ensures { result ≡ extension_test (as_row0 z) head }
{
    (z.extension == 0) | ((z.context == contexts::COMPLEX_TYPE) & (head == tags::SIMPLE_CONTENT))
}
