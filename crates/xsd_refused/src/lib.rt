// The verdict on a simple type: whether lowering refuses it (13, "`UnknownBase`"), by the rows of a schema sheet, and how many it refuses. Places count rows; row 0 is
// at place 0.
#![tactic(auto)]

ghost use Rattle.std.specs.Prelude.{ℕ, ◌+◌, ◌<◌, ◌≤◌, ◌≡◌, List, MatchOption};
ghost use Rattle.builtin.specs.Builtin.{map_builtin, reference};
ghost use Rattle.xsd_types.specs.Places.{row_at, rows_from};
ghost use Rattle.xsd_types.specs.Refused.{only_codes, is_code_enum, refused_row, refused_place};
ghost use Rattle.xsd_types.specs.Count.{refused_rows};

use builtin::{map_builtin, reference_number};
use rows::form::in_range;
use rows::part::SheetPart;
use xsd_types::tags;

fn only_codes(part: &SheetPart<'_>, from: usize) -> bool
    ensures { (names : List ℕ) → result ≡ only_codes (rows_from part.now.rows.now names from part.now.end) }
{
    for p in from..part.end {
        let tag = part.tag(p);
        if tag != tags::ENUMERATION {
            return !in_range(tags::PATTERN, tags::FRACTION_DIGITS, tag);
        }
    }
    true
}

// "Facets all enumerations and not none: code enum". The rows are those from a place on.
pub fn is_code_enum(part: &SheetPart<'_>, from: usize) -> bool
    ensures { (names : List ℕ) → result ≡ is_code_enum (rows_from part.now.rows.now names from part.now.end) }
{
    if part.end <= from {
        return false;
    }
    if part.tag(from) != tags::ENUMERATION {
        return false;
    }
    only_codes(part, from + 1)
}

// 0 named, 1 to 5 built-in.
pub fn reference_of(name: &[u8]) -> u32
    ensures { result ≡ reference (map_builtin name.now) }
{
    reference_number(map_builtin(name))
}

// 13: whether lowering refuses the simple type whose head stands at a place. A code enum's base is not looked at, another's by the number of its reference, as the
// definition has it.
pub fn is_refused(part: &SheetPart<'_>, place: usize) -> bool
    requires { place < part.now.end }
    ensures { result ≡ refused_row (row_at part.now.rows.now part.now.names.now place) (rows_from part.now.rows.now part.now.names.now (place + 1) part.now.end) }
{
    if part.tag(place) != tags::SIMPLE_TYPE {
        return false;
    }
    if is_code_enum(part, place + 1) {
        return false;
    }
    reference_of(part.text(place, 1)) == 0
}

// The place of the first such head.
pub fn first_refused(part: &SheetPart<'_>) -> Option<usize>
    requires { 2 ≤ part.now.end }
    ensures { let place = refused_place 2 (rows_from part.now.rows.now part.now.names.now 2 part.now.end) in MatchOption result (place ≡ 0) (λ p. (0 < p) × (place ≡ p)) }
{
    (2..part.end).find(|p| is_refused(part, *p))
}

// Order 7: how many such heads stand from a place on.
pub fn count_refused(part: &SheetPart<'_>, from: usize) -> usize
    requires { from ≤ part.now.end }
    ensures { result ≡ refused_rows (rows_from part.now.rows.now part.now.names.now from part.now.end) }
{
    (from..part.end).filter(|p| is_refused(part, *p)).count()
}
