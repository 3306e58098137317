// How many rows behind row 1 have a tag that passes a test.
ghost use Rattle.std.specs.Prelude.{◌≡◌, ◌≤◌, ℕ, Bool};
ghost use Rattle.rows.specs.Count.{tags_counted};

use crate::part::SheetPart;

// A sum, which is taken of several rows at a time, where `filter` with `count` stops to ask at each row (docs/DECISIONS.md, 224).
// Two `map`s: of one closure that reads the tag and asks for it, the contract that is inferred does not say what `tag` requires.
pub fn count_tags<F: Fn(u32) -> bool>(part: &SheetPart<'_>, is_counted: F) -> usize
    requires { (2 ≤ part.now.end) × F.IsAlwaysCallable is_counted }
    ensures { (P : ℕ → Bool) → ((tag : ℕ) (b : Bool) → F.post is_counted tag b → b ≡ P tag) → result ≡ tags_counted P part.now.rows.now part.now.end }
{
    (2..part.end)
        .map(|place| part.tag(place))
        .map(|tag| usize::from(is_counted(tag)))
        .sum()
}
