// Bytes put into a lent part one by one: those that an iterator gives.
ghost use Rattle.text.specs.Text.{Text};
ghost use Rattle.names.specs.Answers.{PutByte, Put};

// An iterator over the bytes of a text: its state shows which are left. It can always be asked, gives the first of them, and ends.
pub trait TextBytes: Iterator<Item = u8> + Drop {
    ghost use Rattle.std.specs.Prelude.{ℕ, Option};
    ghost use Rattle.std.specs.Iterator.{IsFinite, YieldsFirst};

    ghost left: { Self → Text };

    ghost ends: { (s : Self) → Self.can_next s × IsFinite (Self.remaining s) };

    ghost gives: { (s : Self) (b : Option ℕ) (t : Self) → Self.next_gives s b t → YieldsFirst left s b t };
}

// A byte at a place of the part: the place behind it is the answer.
#[inline(always)]
pub fn put_byte(out: &mut [u8], at: usize, b: u8) -> Option<usize>
    ensures { PutByte out.old at b result out.new }
{
    if out.len() <= at {
        return None;
    }
    out[at] = b;
    Some(at + 1)
}

// All bytes that are left. Inlined, so that each iterator has a loop of its own.
#[inline(always)]
pub fn put_bytes<B: TextBytes>(bytes: B, out: &mut [u8]) -> Option<usize>
    ensures { Put (B.left bytes) out.old result out.new }
{
    let mut end = 0;
    for b in bytes {
        end = put_byte(out, end, b)?;
    }
    Some(end)
}
