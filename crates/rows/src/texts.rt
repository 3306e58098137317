// The texts that a row uses: their bytes, and their store into the names. How many of two texts it uses is a number, and no Option for each, since a row that is read
// back says the number by its tag and its a, and gives the lengths alone. Names and place, names and text are arguments: what is written and where.
ghost use Rattle.std.specs.Prelude.{◌≡◌, ◌+◌, ◌≤◌, length};
ghost use Rattle.std.proofs.Math.Seq.{paste};
ghost use Rattle.text.specs.Text.{join};
ghost use Rattle.rows.specs.Texts.{used_texts, used_length};

use buffer::copy_text;

pub fn texts_length(pairs: usize, first: usize, second: usize) -> usize
    requires { (used_length pairs first second ≤ 65536) × (pairs ≤ 2) }
    ensures { result ≡ used_length pairs first second }
{
    match pairs {
        0 => 0,
        1 => first,
        _ => first + second,
    }
}

// Stores the used texts into the names, and gives the place behind them.
pub fn put_texts(names: &mut [u8], at: usize, first: &[u8], second: &[u8], pairs: usize) -> usize
    requires { (at + used_length pairs (length first.now) (length second.now) ≤ length names.old) × (pairs ≤ 2) }
    ensures end { result ≡ at + used_length pairs (length first.now) (length second.now) }
    ensures texts { names.new ≡ paste names.old at (join (used_texts pairs first.now second.now)) (used_length pairs (length first.now) (length second.now)) }
{
    if pairs == 0 {
        return at;
    }
    copy_text(names, at, first);
    let end = at + first.len();
    if pairs == 1 {
        return end;
    }
    copy_text(names, end, second);
    end + second.len()
}
