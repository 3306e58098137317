// A part of the names that moves within them. The contracts speak of lists of numbers.
ghost use Rattle.std.specs.Prelude.{◌≡◌, ◌+◌, ◌≤◌, length, take, drop};
ghost use Rattle.std.proofs.Math.Seq.{paste};

// Moves a part of the names to a lower place, from its first byte on.
pub fn shift_down(names: &mut [u8], from: usize, to: usize, count: usize)
    requires { (to ≤ from) × (from + count ≤ length names.old) }
    ensures { names.new ≡ paste names.old to (take count (drop from names.old)) count }
{
    for k in 0..count {
        names[to + k] = names[from + k];
    }
}

// Moves a part of the names to a higher place, from its last byte on.
pub fn shift_up(names: &mut [u8], from: usize, to: usize, count: usize)
    requires { (from ≤ to) × (to + count ≤ length names.old) }
    ensures { names.new ≡ paste names.old to (take count (drop from names.old)) count }
{
    for k in 0..count {
        let last = count - 1 - k;
        names[to + last] = names[from + last];
    }
}

// Moves a part of the names within them. By the two directions and not by `copy_within`, so that each has its contract: which end goes first decides.
pub fn shift_names(names: &mut [u8], from: usize, to: usize, count: usize)
    requires { (from + count ≤ length names.old) × (to + count ≤ length names.old) }
    ensures { names.new ≡ paste names.old to (take count (drop from names.old)) count }
{
    if from < to {
        shift_up(names, from, to, count);
    } else {
        shift_down(names, from, to, count);
    }
}
