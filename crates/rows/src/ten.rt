// A row as ten numbers.
ghost use Rattle.std.specs.Prelude.{◌≡◌, ◌+◌, ◌≤◌, ◌<◌, length, drop};
ghost use Rattle.sheet.specs.Rows.{ten};
ghost use Rattle.rows.specs.Ten.{as_ten, pair_of};

use crate::numbers::{Pair, wide};

// A row's numbers: the tag, three pairs, and a, b, c.
#[derive(Clone, Copy)]
pub struct Ten {
    pub tag: u32,
    pub at0: u32,
    pub len0: u32,
    pub at1: u32,
    pub len1: u32,
    pub at2: u32,
    pub len2: u32,
    pub a: u32,
    pub b: u32,
    pub c: u32,
}

impl Ten {
    // A pair, from 0 on.
    pub fn pair(self, k: usize) -> Pair
        requires { k < 3 }
        ensures { result ≡ pair_of self k }
    {
        let (at, len) = match k {
            0 => (self.at0, self.len0),
            1 => (self.at1, self.len1),
            _ => (self.at2, self.len2),
        };
        Pair {
            at: wide(at),
            len: wide(len),
        }
    }
}

// A function and no `From<&[u32]>`: of a slice that is shorter there is no row, which a `requires` says here.
#[tactic(auto, unfolding(sheet::specs::Rows::ten))]
pub fn ten_of(row: &[u32]) -> Ten
    requires { 10 ≤ length row.now }
    ensures { as_ten result ≡ ten row.now }
{
    Ten {
        tag: row[0],
        at0: row[1],
        len0: row[2],
        at1: row[3],
        len1: row[4],
        at2: row[5],
        len2: row[6],
        a: row[7],
        b: row[8],
        c: row[9],
    }
}

// The row whose first number stands at a place.
pub fn ten_at(rows: &[u32], at: usize) -> Ten
    requires { at + 10 ≤ length rows.now }
    ensures { as_ten result ≡ ten (drop at rows.now) }
{
    ten_of(&rows[at..])
}
