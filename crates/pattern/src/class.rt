// A class in brackets.
ghost use Rattle.std.specs.Prelude.{not, ◌+◌, ◌≤◌, ◌<◌, length, get_or};
ghost use Rattle.pattern.specs.Scan.{Mode, atom, opened, class};
ghost use Rattle.pattern.specs.Grammar.{is_in_class};
ghost use Rattle.pattern.specs.Answers.{Goes, Ends, Escapes, any_byte};

use crate::tests::{is_escaped, is_in_class};
use text::byte_at;

// Where a run of characters in a class ends.
fn in_class_end(s: &[u8], at: usize) -> usize
    requires { at ≤ length s.now }
    ensures { Goes s.now class at class at result (λ b. not (is_in_class b)) }
{
    (at..s.len())
        .find(|i| !is_in_class(s[*i]))
        .unwrap_or(s.len())
}

// An escape, in a class or outside: its clause is over the modes of the scan in which any other byte is refused here.
pub fn escape(s: &[u8], at: usize) -> Option<usize>
    requires { at < length s.now }
    ensures { (m : Mode) (e : Mode) (n : Mode) → Escapes m e n (get_or s.now at 0) → Ends s.now m at n (at + 1) any_byte result }
{
    if s[at] != b'\\' {
        return None;
    }
    if is_escaped(byte_at(s, at + 1)) {
        return Some(at + 2);
    }
    None
}

// The rest of a class behind its opening bracket.
pub fn class_end(s: &[u8], at: usize) -> Option<usize>
    requires { at ≤ length s.now }
    ensures { Ends s.now opened at atom at any_byte result }
{
    if byte_at(s, at) == b']' {
        return None;
    }
    // No `for`: characters up to an escape are any number of bytes.
    let mut i = at;
    while i < s.len() {
        let e = in_class_end(s, i);
        if s.len() <= e {
            return None;
        }
        if s[e] == b']' {
            return Some(e + 1);
        }
        i = escape(s, e)?;
    }
    None
}
