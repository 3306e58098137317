// What is asked of a row of a graph sheet by its tag, and by whether its a is 0. A static table: it is not laid down on the stack.
// `xsd_good` has a `Rule`, `rule_of`, `may_follow` and `passes` of its own: a schema sheet has other tags and other heads, its row is not asked by whether a is 0, b is
// 0 or free there and has a greatest value here, and only here is a third pair used. One `Rule` for both would have columns of which each sheet leaves some unused.
ghost use Rattle.std.specs.Prelude.{◌≡◌, ◌≤◌, not, eqb};
ghost use Rattle.sheet.specs.Rows.{bit};
ghost use Rattle.graph_form.specs.Rules.{rule_of};

use ir_types::tags;

// The greatest a and b; 1 where c has to be 0; 1 where the first, the second and the third pair are used; and the heads behind which the row may stand, as a
// set of bits.
#[derive(Clone, Copy)]
pub struct Rule {
    pub most_a: u32,
    pub most_b: u32,
    pub no_c: u32,
    pub first: u32,
    pub second: u32,
    pub third: u32,
    pub heads: u32,
}

const ANY: u32 = 4294967295;

// The sets of heads, each head by the bit of its tag: none, all, what stands before the types (the tags up to that of a root), and the head of each kind of child.
const NONE: u32 = 0;

const ALL: u32 = 4294967295;

const ROOTS: u32 = 7;

const STRUCT: u32 = 1 << tags::STRUCT;

const ENUM: u32 = 1 << tags::ENUM;

const NEWTYPE: u32 = 1 << tags::NEWTYPE;

const CODES: u32 = 1 << tags::CODE_ENUM;

const VALUE: u32 = 1 << tags::VALUE_WITH_ATTRIBUTES;

// Rows of bare numbers, in the order of the fields of `Rule`: first of an a of 0, then of any other. Written with the names of the fields, the forty rows would be
// over 360 lines, and what two tags have in common would no longer be seen at once.
static RULES: [[[u32; 7]; 2]; 20] = [
    [[0, 0, 1, 1, 0, 0, NONE], [0, 0, 1, 1, 0, 0, NONE]],
    [[0, 0, 1, 1, 0, 0, NONE], [0, 0, 1, 1, 0, 0, NONE]],
    [[0, 0, 0, 1, 1, 0, ROOTS], [0, 0, 0, 1, 1, 0, ROOTS]],
    [[0, 0, 0, 1, 0, 0, ALL], [0, 0, 0, 1, 0, 0, ALL]],
    [[0, 0, 0, 1, 0, 0, ALL], [0, 0, 0, 1, 0, 0, ALL]],
    [[5, 0, 0, 1, 0, 0, ALL], [5, 0, 0, 1, 0, 0, ALL]],
    [[0, 0, 0, 1, 0, 0, ALL], [0, 0, 0, 1, 0, 0, ALL]],
    [[5, 0, 0, 1, 1, 0, ALL], [5, 0, 0, 1, 0, 0, ALL]],
    [[1, 0, 0, 1, 0, 0, ALL], [1, 0, 0, 1, 1, 0, ALL]],
    [[5, 3, 1, 1, 1, 1, STRUCT], [5, 3, 1, 1, 1, 0, STRUCT]],
    [[5, 0, 1, 1, 1, 1, ENUM], [5, 0, 1, 1, 1, 0, ENUM]],
    [[0, 0, 1, 1, 0, 0, NEWTYPE], [0, 0, 1, 1, 0, 0, NEWTYPE]],
    [
        [ANY, ANY, 1, 0, 0, 0, NEWTYPE],
        [ANY, ANY, 1, 0, 0, 0, NEWTYPE],
    ],
    [
        [ANY, ANY, 1, 0, 0, 0, NEWTYPE],
        [ANY, ANY, 1, 0, 0, 0, NEWTYPE],
    ],
    [[0, 0, 1, 1, 0, 0, NEWTYPE], [0, 0, 1, 1, 0, 0, NEWTYPE]],
    [[0, 0, 1, 1, 0, 0, NEWTYPE], [0, 0, 1, 1, 0, 0, NEWTYPE]],
    [[ANY, 0, 1, 0, 0, 0, NEWTYPE], [ANY, 0, 1, 0, 0, 0, NEWTYPE]],
    [[ANY, 0, 1, 0, 0, 0, NEWTYPE], [ANY, 0, 1, 0, 0, 0, NEWTYPE]],
    [[0, 0, 1, 1, 1, 0, CODES], [0, 0, 1, 1, 1, 0, CODES]],
    [[5, 1, 1, 1, 1, 1, VALUE], [5, 1, 1, 1, 1, 0, VALUE]],
];

// The rule of a tag and an a.
pub fn rule_of(tag: u32, a: u32) -> Rule
    requires { tag ≤ 19 }
    ensures { result ≡ rule_of tag (bit (not (eqb a 0))) }
{
    let [most_a, most_b, no_c, first, second, third, heads] = RULES[tag as usize][usize::from(
        a != 0,
    )];
    Rule {
        most_a,
        most_b,
        no_c,
        first,
        second,
        third,
        heads,
    }
}
