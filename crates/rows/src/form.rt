// The form of a row's numbers: ranges, flags, and the pairs, which cover the names in row order.
ghost use Rattle.std.specs.Prelude.{◌≡◌, ℕ, ◌+◌, ◌≤◌, ◌^◌, ◌||◌, eqb};
ghost use Rattle.text.specs.Text.{between};
ghost use Rattle.sheet.specs.Form.{is_flag, pair_form, row_covers, end_of};
ghost use Rattle.rows.specs.Ten.{as_ten};
ghost use Rattle.rows.specs.Table.{in_heads, PairsBy};

use crate::numbers::wide;
use crate::ten::Ten;

// Of numbers what `text::ascii::in_range` is of bytes. Both stand, since both are public from the beginning, and differ in the type alone: a generic one would stand beside them.
#[tactic(auto, unfolding(text::specs::Text::between))]
pub fn in_range(low: u32, high: u32, x: u32) -> bool
    ensures { result ≡ between low high x }
{
    (low <= x) & (x <= high)
}

#[tactic(auto, unfolding(sheet::specs::Form::is_flag))]
pub fn is_flag(x: u32) -> bool
    ensures { result ≡ is_flag x }
{
    x <= 1
}

// A used pair starts at k; an unused one is 0 0.
#[tactic(auto, unfolding(sheet::specs::Form::pair_form))]
fn pair_form(used: bool, k: usize, at: u32, len: u32) -> bool
    ensures { result ≡ pair_form used k at len }
{
    if used {
        wide(at) == k
    } else {
        (at == 0) & (len == 0)
    }
}

// Whether the row's pairs, of which so many are used, stand in the names from k on.
#[tactic(auto, unfolding(sheet::specs::Form::row_covers))]
pub fn row_covers(used: usize, k: usize, t: Ten) -> bool
    requires { k ≤ 2 ^ 32 }
    ensures { (used_pairs : ℕ → ℕ → ℕ) → used ≡ used_pairs t.tag t.a → result ≡ row_covers used_pairs k (as_ten t) }
{
    let second = k + wide(t.len0);
    let third = second + wide(t.len1);
    pair_form(1 <= used, k, t.at0, t.len0)
        & pair_form(2 <= used, second, t.at1, t.len1)
        & pair_form(3 <= used, third, t.at2, t.len2)
}

// Where the row's pairs end.
#[tactic(auto, unfolding(sheet::specs::Form::end_of))]
pub fn end_of(k: usize, t: Ten) -> usize
    requires { k ≤ 2 ^ 32 }
    ensures { result ≡ end_of k (as_ten t) }
{
    k + wide(t.len0) + wide(t.len1) + wide(t.len2)
}

// The same by a table of tags. What is asked is told there by 0 and 1, by which is multiplied, so that neither a pair nor a zero takes a branch of its own. Each function
// asks for a number of 0 or 1: (b), tried with `bool` in the table's rule and in these functions, over which `pair_form` and `row_covers` were then a line each: a reading took 16
// instructions more a row and 1,029 bytes of stack, where the header says 1,024. With tests by ranges of tags it took twice the time (docs/DECISIONS.md, 212).

// Whether a number is 0, where that is asked.
pub fn is_zero_by(asked: u32, x: u32) -> bool
    requires { asked ≤ 1 }
    ensures { result ≡ (eqb asked 0 || eqb x 0) }
{
    wide(asked) * wide(x) == 0
}

// A pair, by whether it is used.
fn pair_by(used: u32, k: usize, at: u32, len: u32) -> bool
    requires { (used ≤ 1) × (k ≤ 2 ^ 34) }
    ensures { result ≡ pair_form (eqb used 1) k at len }
{
    (wide(at) == wide(used) * k) & ((1 - wide(used)) * wide(len) == 0)
}

// The pairs of a row, by which of them are used.
pub fn pairs_by(first: u32, second: u32, third: u32, k: usize, t: Ten) -> bool
    requires { (first ≤ 1) × (second ≤ 1) × (third ≤ 1) × (k ≤ 2 ^ 32) }
    ensures { PairsBy first second third k (as_ten t) result }
{
    let at1 = k + wide(t.len0);
    let at2 = at1 + wide(t.len1);
    pair_by(first, k, t.at0, t.len0)
        & pair_by(second, at1, t.at1, t.len1)
        & pair_by(third, at2, t.at2, t.len2)
}

// Whether a head is in a set of heads, the last of which stands for all from 31 on.
pub fn in_heads(heads: u32, head: u32) -> bool
    ensures { result ≡ in_heads heads head }
{
    (heads >> head.min(31)) % 2 == 1
}
