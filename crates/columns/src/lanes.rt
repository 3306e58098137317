// Squares of sixteen numbers, each a vector for each of four rows or columns.
ghost use Rattle.std.specs.Prelude.{◌≡◌, ◌+◌, ◌*◌, ◌≤◌, length};
ghost use Rattle.std.specs.Simd.Lanes.{zip2, chunk};
ghost use Rattle.columns.specs.Columns.{minus, plus};
ghost use Rattle.columns.specs.Filled.{across, square_at};

use std::simd::prelude::*;

pub type Square = (u32x4, u32x4, u32x4, u32x4);

// Four vectors that stand `step` numbers apart.
pub fn read_square(s: &[u32], from: usize, step: usize) -> Square
    requires { from + 3 * step + 4 ≤ length s.now }
    ensures { (result.0 ≡ chunk from 4 s.now) × (result.1 ≡ chunk (from + step) 4 s.now) × (result.2 ≡ chunk (from + 2 * step) 4 s.now) × (result.3 ≡ chunk (from + 3 * step) 4 s.now) }
{
    let first = u32x4::from_slice(&s[from..]);
    let second = u32x4::from_slice(&s[from + step..]);
    let third = u32x4::from_slice(&s[from + 2 * step..]);
    let fourth = u32x4::from_slice(&s[from + 3 * step..]);
    (first, second, third, fourth)
}

pub fn write_square(square: Square, out: &mut [u32], from: usize, step: usize)
    requires { from + 3 * step + 4 ≤ length out.old }
    ensures { out.new ≡ square_at from step out.old square.0 square.1 square.2 square.3 }
{
    let (first, second, third, fourth) = square;
    first.copy_to_slice(&mut out[from..]);
    second.copy_to_slice(&mut out[from + step..]);
    third.copy_to_slice(&mut out[from + 2 * step..]);
    fourth.copy_to_slice(&mut out[from + 3 * step..]);
}

// Rows and columns exchanged.
pub fn turned(square: Square) -> Square
    ensures { (result.0 ≡ across 0 square.0 square.1 square.2 square.3) × (result.1 ≡ across 1 square.0 square.1 square.2 square.3)
        × (result.2 ≡ across 2 square.0 square.1 square.2 square.3) × (result.3 ≡ across 3 square.0 square.1 square.2 square.3) }
{
    let (a, b, c, d) = square;
    let (a_c, a_c_high) = a.interleave(c);
    let (b_d, b_d_high) = b.interleave(d);
    let (first, second) = a_c.interleave(b_d);
    let (third, fourth) = a_c_high.interleave(b_d_high);
    (first, second, third, fourth)
}

// The wrapping difference of each lane: a vector's `-` wraps.
pub fn difference(x: u32x4, above: u32x4) -> u32x4
    ensures { result ≡ zip2 minus x above }
{
    x - above
}

// The wrapping sum of each lane: a vector's `+` wraps.
pub fn sum(above: u32x4, x: u32x4) -> u32x4
    ensures { result ≡ zip2 plus above x }
{
    above + x
}
