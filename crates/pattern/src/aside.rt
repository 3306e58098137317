// The forms that are not judged.
ghost use Rattle.std.specs.Prelude.{◌≡◌, ◌≤◌, length, ltb, eqb, cond};
ghost use Rattle.sheet.specs.Limits.{pattern_opens_limit};
ghost use Rattle.pattern.specs.Call.{is_aside_pair, aside_pairs, count_byte, is_aside};

use sheet::limits;

fn is_aside_pair(b: u8, next: u8) -> bool
    ensures { result ≡ is_aside_pair b next }
{
    ((b == b'\\') & ((next == b'p') | (next == b'P'))) | ((b == b'-') & (next == b'['))
}

// By places: with `array_windows`, `windows(2)` or `zip` a pattern of 14 bytes takes 178 to 196 instructions more (of 374) and one of 980 bytes 309 to 333 (of 12,274),
// since the compiler takes what is left of a vector byte by byte; with `any`, which stops at the first pair, 980 bytes take 16,500 to 19,400 more, since it makes no vectors.
fn has_pair(s: &[u8]) -> bool
    ensures { result ≡ aside_pairs s.now }
{
    (1..s.len()).fold(false, |found, i| found | is_aside_pair(s[i - 1], s[i]))
}

// How many opening parentheses there are. Counted apart from the pairs, since the numbers are wider than bytes.
fn opens(s: &[u8]) -> u16
    requires { length s.now ≤ 1024 }
    ensures { result ≡ count_byte 40 s.now }
{
    s.iter()
        .map(
            |b|
                ensures { result ≡ cond (eqb b.now 40) 1 0 }
            { u16::from(*b == b'(') },
        )
        .sum()
}

// Whether too many parentheses open: no more than there are bytes, so that those of a short pattern are not counted.
fn has_many_opens(s: &[u8]) -> bool
    requires { length s.now ≤ 1024 }
    ensures { result ≡ ltb pattern_opens_limit (count_byte 40 s.now) }
{
    if s.len() <= limits::PATTERN_OPENS as usize {
        return false;
    }
    limits::PATTERN_OPENS < opens(s)
}

// Two bytes that are left aside, or too many opening parentheses.
pub fn is_aside(s: &[u8]) -> bool
    requires { length s.now ≤ 1024 }
    ensures { result ≡ is_aside s.now }
{
    has_pair(s) | has_many_opens(s)
}
