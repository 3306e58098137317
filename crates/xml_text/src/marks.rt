// The numbers of the tape, stored as far as the marks reach.
ghost use Rattle.std.specs.Prelude.{◌≡◌, ◌+◌, ◌-◌, ◌≤◌, ◌<◌, set};

// Stores a number where the marks reach so far.
pub fn put(marks: &mut [u32], at: usize, number: u32)
    ensures { marks.new ≡ set marks.old at number }
{
    // Tried with `get_mut`: the proof does not close, since of what is written by a slice's `get_mut` only the length is known.
    if at < marks.len() {
        marks[at] = number;
    }
}

// Stores two numbers, with one look at the length where both fit. Not one function with `put_four` over the count: where not all numbers fit, four are stored by twos and
// two one by one, in three lines; over an array of any length that is a loop with an invariant.
pub fn put_two(marks: &mut [u32], at: usize, first: u32, second: u32)
    requires { at < 1000000 }
    ensures { marks.new ≡ set (set marks.old at first) (at + 1) second }
{
    if at + 1 < marks.len() {
        marks[at] = first;
        marks[at + 1] = second;
    } else {
        put(marks, at, first);
    }
}

// Stores the pair of the bytes from one offset up to another. A tag and an attribute store four numbers at once; this one stands for a pair alone.
pub fn put_pair(marks: &mut [u32], at: usize, from: usize, to: usize)
    requires { (at < 1000000) × (from ≤ to) × (to ≤ 65536) }
    ensures { marks.new ≡ set (set marks.old at from) (at + 1) (to - from) }
{
    put_two(marks, at, from as u32, (to - from) as u32);
}

// Stores four numbers, with one look at the length where all fit.
pub fn put_four(marks: &mut [u32], at: usize, first: u32, second: u32, third: u32, fourth: u32)
    requires { at + 2 < 1000000 }
    ensures { marks.new ≡ set (set (set (set marks.old at first) (at + 1) second) (at + 2) third) (at + 2 + 1) fourth }
{
    if at + 3 < marks.len() {
        marks[at] = first;
        marks[at + 1] = second;
        marks[at + 2] = third;
        marks[at + 3] = fourth;
    } else {
        put_two(marks, at, first, second);
        put_two(marks, at + 2, third, fourth);
    }
}
