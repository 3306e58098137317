// Short texts compared by numbers: four or eight bytes from their start, and as many up to their end, which may overlap. `==` of slices is a call of 13 to 21
// instructions; this is inlined, and where the lengths are known it is two to five (docs/DECISIONS.md, 236).
ghost use Rattle.std.specs.Prelude.{◌≡◌, ◌+◌, ◌≤◌, length, take, drop};
ghost use Rattle.std.specs.Int.{from_le_bytes, to_le_bytes, w32, w64};
ghost use Rattle.text.specs.Text.{same};

use text::same_text;

// The four bytes from a place on as a number, the first lowest.
#[inline(always)]
fn four_at(s: &[u8], at: usize) -> u32
    requires { at + 4 ≤ length s.now }
    ensures number { result ≡ from_le_bytes w32 (take 4 (drop at s.now)) }
    ensures bytes { to_le_bytes w32 result ≡ take 4 (drop at s.now) }
{
    u32::from_le_bytes(*s[at..].first_chunk().unwrap())
}

// The same of eight bytes. A function of its own: `from_le_bytes` of the two numbers are two functions, and a trait over both would have two impls with these bodies.
#[inline(always)]
fn eight_at(s: &[u8], at: usize) -> u64
    requires { at + 8 ≤ length s.now }
    ensures number { result ≡ from_le_bytes w64 (take 8 (drop at s.now)) }
    ensures bytes { to_le_bytes w64 result ≡ take 8 (drop at s.now) }
{
    u64::from_le_bytes(*s[at..].first_chunk().unwrap())
}

#[inline(always)]
fn same_by_four(a: &[u8], b: &[u8]) -> bool
    requires { (length a.now ≡ length b.now) × (4 ≤ length a.now) × (length a.now ≤ 8) }
    ensures { result ≡ same a.now b.now }
{
    let last = a.len() - 4;
    four_at(a, 0) == four_at(b, 0) && four_at(a, last) == four_at(b, last)
}

#[inline(always)]
fn same_by_eight(a: &[u8], b: &[u8]) -> bool
    requires { (length a.now ≡ length b.now) × (8 ≤ length a.now) × (length a.now ≤ 16) }
    ensures { result ≡ same a.now b.now }
{
    let last = a.len() - 8;
    eight_at(a, 0) == eight_at(b, 0) && eight_at(a, last) == eight_at(b, last)
}

// Whether two texts are the same.
#[inline(always)]
pub fn same_short(a: &[u8], b: &[u8]) -> bool
    ensures { result ≡ same a.now b.now }
{
    if a.len() != b.len() {
        return false;
    }
    match b.len() {
        4..=8 => same_by_four(a, b),
        9..=16 => same_by_eight(a, b),
        _ => same_text(a, b),
    }
}
