// Stores into the buffers of a sheet: a text. `shift`: a part moved; `replace`: a part replaced. The contracts speak of lists of numbers.
// Names and place, names and text are arguments: what is written and where, of a buffer that others own.
#![tactic(auto)]

pub mod replace;
pub mod shift;

ghost use Rattle.std.specs.Prelude.{◌≡◌, ◌+◌, ◌≤◌, length};
ghost use Rattle.std.proofs.Math.Seq.{paste};

use plain_bytes::copy_bytes;

// Stores a text into the names. A function, since the line is longer at each caller, and `paste` is what the callers' contracts speak of.
pub fn copy_text(names: &mut [u8], at: usize, text: &[u8])
    requires { at + length text.now ≤ length names.old }
    ensures { names.new ≡ paste names.old at text.now (length text.now) }
{
    copy_bytes(&mut names[at..at + text.len()], text);
}
