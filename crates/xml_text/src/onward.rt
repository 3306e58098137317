// Where the reading of the root stands.
ghost use Rattle.std.specs.Prelude.{◌*◌, ◌≤◌};

// How many tags are open at a position inside the root, and how many marks are used before it. Each open tag took three bytes at least, and each byte two marks at
// most.
#[derive(Clone, Copy)]
pub struct Onward {
    pub count: usize,
    pub used: usize,
    pub at: usize,
    ghost opened: { 3 * count ≤ at },
    ghost stored: { used ≤ 2 * at },
}
