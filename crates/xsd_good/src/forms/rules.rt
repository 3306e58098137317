// What is asked of a row of a schema sheet by its tag. A static table: it is not laid down on the stack. `graph_form::rules` has the table of the other sheet: other tags, other
// numbers and another function beside it, which one function over both would be handed (d).
ghost use Rattle.std.specs.Prelude.{◌≡◌, ◌≤◌};
ghost use Rattle.xsd_good.specs.Rules.{rule_of};

use xsd_types::tags;

// The greatest a; 1 where b, and where c, has to be 0; 1 where the first and the second pair are used, of an any where a is 0; and the heads behind which
// the row may stand, as a set of bits.
#[derive(Clone, Copy)]
pub struct Rule {
    pub most_a: u32,
    pub no_b: u32,
    pub no_c: u32,
    pub first: u32,
    pub second: u32,
    pub heads: u32,
}

// The sets of heads: all but an open type without content, and the head of each kind of child, a bit for each tag.
const HEADS: u32 = !(1 << tags::NO_CONTENT);

const SIMPLE: u32 = 1 << tags::SIMPLE_TYPE;

const SEQUENCE: u32 = 1 << tags::SEQUENCE;

const CHOICE: u32 = 1 << tags::CHOICE;

const CONTENT: u32 = 1 << tags::SIMPLE_CONTENT;

// The numbers in the order of the fields of `Rule`: with their names beside them the table would have 168 lines (d).
static RULES: [[u32; 6]; 21] = [
    [0, 1, 1, 1, 0, 0],
    [0, 1, 1, 1, 0, 0],
    [0, 1, 0, 1, 1, HEADS],
    [0, 1, 0, 1, 1, HEADS],
    [0, 1, 1, 1, 0, SIMPLE],
    [0, 1, 1, 1, 0, SIMPLE],
    [u32::MAX, 0, 1, 0, 0, SIMPLE],
    [u32::MAX, 0, 1, 0, 0, SIMPLE],
    [0, 1, 1, 1, 0, SIMPLE],
    [0, 1, 1, 1, 0, SIMPLE],
    [u32::MAX, 1, 1, 0, 0, SIMPLE],
    [u32::MAX, 1, 1, 0, 0, SIMPLE],
    [0, 1, 0, 1, 0, HEADS],
    [0, 1, 0, 1, 0, HEADS],
    [0, 1, 0, 1, 1, HEADS],
    [1, 1, 0, 1, 0, HEADS],
    [0, 1, 0, 1, 0, HEADS],
    [u32::MAX, 0, 1, 1, 1, SEQUENCE],
    [u32::MAX, 1, 1, 1, 1, SEQUENCE],
    [0, 1, 1, 1, 1, CHOICE],
    [1, 1, 1, 1, 1, CONTENT],
];

// The rule of a tag.
pub fn rule_of(tag: u32) -> Rule
    requires { tag ≤ 20 }
    ensures { result ≡ rule_of tag }
{
    let [most_a, no_b, no_c, first, second, heads] = RULES[tag as usize];
    Rule {
        most_a,
        no_b,
        no_c,
        first,
        second,
        heads,
    }
}
