// A text in the middle of the names, replaced. The contract speaks of lists of numbers, and of
// `filled`: a used part with zeros behind it.
ghost use Rattle.std.specs.Prelude.{◌≡◌, List, ◌++◌, ℕ, ◌+◌, ◌-◌, ◌≤◌, length};
ghost use Rattle.sheet.specs.Rows.{filled};

use crate::copy_text;
use crate::shift::shift_names;

// Replaces the text of len bytes at `at` in the names, whose used part ends at `used`. Not a slice of the used part: the new text may take room behind it.
pub fn replace_names(names: &mut [u8], used: usize, at: usize, len: usize, new: &[u8])
    requires { (at + len ≤ used) × (used ≤ length names.old) × (used - len + length new.now ≤ length names.old) }
    ensures { (n : ℕ) (p q r : List ℕ) → names.old ≡ filled n (p ++ q ++ r) → length names.old ≡ n → length p ≡ at → length q ≡ len
        → length (p ++ q ++ r) ≡ used → names.new ≡ filled n (p ++ new.now ++ r) }
{
    let from = at + len;
    let to = at + new.len();
    let count = used - from;
    shift_names(names, from, to, count);
    let end = to + count;
    names[end..used.max(end)].fill(0);
    copy_text(names, at, new);
}
