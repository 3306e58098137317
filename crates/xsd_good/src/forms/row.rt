// The tests of a row of a schema sheet, by the table of tags (`rules`) where they ask more than one thing of a tag.
ghost use Rattle.std.specs.Prelude.{◌≡◌, eqb, if◌then◌else◌};
ghost use Rattle.xsd_types.specs.Tags.{any_tag};
ghost use Rattle.xsd_types.specs.Good.{used_pairs, row_form, is_head, may_follow, head_after};
ghost use Rattle.xsd_good.specs.Forms.{schema_tests};

use crate::forms::rules::{Rule, rule_of};
use rows::form::{in_heads, in_range, is_zero_by, pairs_by};
use rows::numbers::wide;
use rows::scan::RowTests;
use rows::ten::Ten;
use xsd_types::tags;

// The tags of heads, a bit for each: one look at a bit for each row, where `matches!` takes a range and then a bit.
const HEAD_TAGS: u32 = (1 << tags::ELEMENT)
    + (1 << tags::SIMPLE_TYPE)
    + (1 << tags::SEQUENCE)
    + (1 << tags::CHOICE)
    + (1 << tags::SIMPLE_CONTENT)
    + (1 << tags::ANY)
    + (1 << tags::NO_CONTENT);

pub fn is_head(tag: u32) -> bool
    ensures { result ≡ is_head tag }
{
    in_heads(HEAD_TAGS, tag)
}

// Which tag may stand behind which head, by the table.
pub fn may_follow(head: u32, tag: u32) -> bool
    ensures { result ≡ may_follow head tag }
{
    (tag <= tags::ATTRIBUTE) && in_heads(rule_of(tag).heads, head)
}

#[tactic(auto, unfolding(xsd_types::specs::Good::head_after))]
pub fn head_after(head: u32, tag: u32) -> u32
    ensures { result ≡ head_after head tag }
{
    if is_head(tag) { tag } else { head }
}

// The tag is known, flags are 0 or 1, other unused numbers are 0, by the table.
pub fn row_form(tag: u32, a: u32, b: u32, c: u32) -> bool
    ensures { result ≡ row_form tag a b c }
{
    if !in_range(tags::ELEMENT, tags::ATTRIBUTE, tag) {
        return false;
    }
    let rule = rule_of(tag);
    (a <= rule.most_a) & is_zero_by(rule.no_b, b) & is_zero_by(rule.no_c, c)
}

// How many pairs a row uses. Three tests and no `match`, which the compiler makes a tree of branches of: rows whose offsets are set anew took 33 instructions each in the place of 16.
#[tactic(auto, unfolding(xsd_types::specs::Good::used_pairs, text::specs::Text::between))]
pub fn used_pairs(tag: u32, a: u32) -> usize
    ensures { result ≡ used_pairs tag a }
{
    if matches!(tag, tags::MIN_LENGTH..=tags::MAX_LENGTH | tags::TOTAL_DIGITS..=tags::FRACTION_DIGITS)
    {
        return 0;
    }
    if tag == tags::ANY {
        return 1 + wide(a);
    }
    if matches!(tag, tags::ELEMENT..=tags::SIMPLE_TYPE | tags::SIMPLE_CONTENT | tags::BOUND_ELEMENT..=tags::ATTRIBUTE)
    {
        2
    } else {
        1
    }
}

// Whether the second pair of a row is used, as a number: of an any by its a, which is a flag.
fn second_pair(rule: Rule, t: Ten) -> u32
    ensures { result ≡ (if eqb t.tag any_tag then t.a else rule.second) }
{
    if t.tag == tags::ANY { t.a } else { rule.second }
}

// The rows of a schema sheet.
pub struct SchemaRow;

impl RowTests for SchemaRow {
    ghost tests = { schema_tests };

    fn passes(head: u32, k: usize, t: Ten) -> bool {
        // Two tests, so that the second and the table know a tag that passed the first: with one test by `&` the pass takes 10 instructions more a row.
        if !row_form(t.tag, t.a, t.b, t.c) {
            return false;
        }
        if !may_follow(head, t.tag) {
            return false;
        }
        let rule = rule_of(t.tag);
        pairs_by(rule.first, second_pair(rule, t), 0, k, t)
    }

    fn used_pairs(tag: u32, a: u32) -> usize {
        used_pairs(tag, a)
    }

    fn head_after(head: u32, tag: u32) -> u32 {
        head_after(head, tag)
    }

    fn is_text(s: &[u8]) -> bool {
        text::is_text(s)
    }
}
