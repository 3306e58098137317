// The tests of a row of a graph sheet behind row 1.
// The numbers of a row one by one, as in the definitions: each test asks for two or three of them.
ghost use Rattle.std.specs.Prelude.{◌≡◌, ◌+◌, ◌≤◌, ◌&&◌, ◌||◌, eqb, leb, if◌then◌else◌};
ghost use Rattle.ir_types.specs.Tags.{field_tag};
ghost use Rattle.rows.specs.Ten.{as_ten};
ghost use Rattle.ir_types.specs.Form.{used_pairs, is_type_tag, ten_form, may_follow};
ghost use Rattle.graph_form.specs.Tests.{graph_tests};

use crate::rules::rule_of;
use ir_types::tags;
use rows::form::{in_heads, in_range, is_zero_by, pairs_by};
use rows::numbers::wide;
use rows::scan::RowTests;
use rows::ten::Ten;

#[tactic(auto, unfolding(ir_types::specs::Form::is_type_tag))]
pub fn is_type(tag: u32) -> bool
    ensures { result ≡ is_type_tag tag }
{
    in_range(tags::STRUCT, tags::OPAQUE, tag)
}

// The pairs of a row that has a reference: its own, and the reference's where a is 0.
fn with_reference(own: usize, a: u32) -> usize
    requires { own ≤ 2 }
    ensures { result ≡ (if eqb a 0 then own + 1 else own) }
{
    own + usize::from(a == 0)
}

// How many pairs a row uses.
#[tactic(auto, unfolding(ir_types::specs::Form::used_pairs, text::specs::Text::between))]
pub fn used_pairs(tag: u32, a: u32) -> usize
    ensures { result ≡ used_pairs tag a }
{
    match tag {
        tags::MIN_LENGTH..=tags::MAX_LENGTH | tags::TOTAL_DIGITS..=tags::FRACTION_DIGITS => 0,
        tags::OPAQUE => 1 + wide(a),
        tags::VALUE_WITH_ATTRIBUTES => with_reference(1, a),
        tags::FIELD..=tags::VARIANT | tags::ATTRIBUTE => with_reference(2, a),
        tags::ROOT | tags::CODE => 2,
        _ => 1,
    }
}

// c: of a field that is bounded the bound, above 1; else 0 where the table asks it.
fn c_form(no_c: u32, t: Ten) -> bool
    requires { no_c ≤ 1 }
    ensures { result ≡ (if eqb t.tag field_tag && eqb t.b 3 then leb 2 t.c else (eqb no_c 0 || eqb t.c 0)) }
{
    if (t.tag == tags::FIELD) & (t.b == 3) {
        2 <= t.c
    } else {
        is_zero_by(no_c, t.c)
    }
}

// The tag is known, and a, b and c are as the table has it. The inner type of a newtype is never 0.
pub fn row_form(t: Ten) -> bool
    ensures { result ≡ ten_form (as_ten t) }
{
    let inner_missing = (t.tag == tags::NEWTYPE) & (t.a == 0);
    if !in_range(tags::ROOT, tags::ATTRIBUTE, t.tag) | inner_missing {
        return false;
    }
    let rule = rule_of(t.tag, t.a);
    (t.a <= rule.most_a) & (t.b <= rule.most_b) & c_form(rule.no_c, t)
}

// Which tag may stand behind which head, by the table. a makes no difference, so the rule of an a of 1 is asked.
pub fn may_follow(head: u32, tag: u32) -> bool
    ensures { result ≡ may_follow head tag }
{
    (tag <= tags::ATTRIBUTE) && in_heads(rule_of(tag, 1).heads, head)
}

// The rows of a graph sheet.
pub struct GraphRow;

impl RowTests for GraphRow {
    ghost tests = { graph_tests };

    fn passes(head: u32, k: usize, t: Ten) -> bool {
        // One test, not two as in `xsd_good`: so the call takes more instructions, but 43.7 us in the place of 55.6 at 4,095 rows.
        if !(row_form(t) & may_follow(head, t.tag)) {
            return false;
        }
        let rule = rule_of(t.tag, t.a);
        pairs_by(rule.first, rule.second, rule.third, k, t)
    }

    fn used_pairs(tag: u32, a: u32) -> usize {
        used_pairs(tag, a)
    }

    #[tactic(auto, unfolding(ir_types::specs::Form::head_after))]
    fn head_after(head: u32, tag: u32) -> u32 {
        if is_type(tag) | (tag == tags::ROOT) {
            tag
        } else {
            head
        }
    }

    fn is_text(s: &[u8]) -> bool {
        text::is_graph_text(s)
    }
}
