// Expression, branch, piece and atom: each calls the next, and an atom may hold an expression again, one byte further on. Braces are read as characters,
// since what may follow a quantity may follow its last brace. Each takes the whole pattern and a place, and gives the place behind its part: the definitions
// read the whole at places, and the rest as a slice would have to be tied to them by its length.
ghost use Rattle.std.specs.Prelude.{◌≡◌, ◌+◌, ◌≤◌, ◌<◌, false, length, get_or};
ghost use Rattle.pattern.specs.Scan.{start, atom};
ghost use Rattle.pattern.specs.Answers.{Goes, Ends, ExpressionJudged, is_close, is_branch_end, any_byte};

use crate::class::{class_end, escape};
use crate::tests::{is_mark, is_plain};
use text::byte_at;

// Branches with bars between them.
#[cycle(atom_branch_expression_piece)]
fn expression(s: &[u8], at: usize) -> Option<usize>
    requires { at ≤ length s.now }
    ensures { Ends s.now start at start at is_close result }
{
    // No `for`: a branch has any number of bytes.
    let mut i = at;
    loop {
        let e = branch(s, i)?;
        if s.len() <= e {
            return Some(e);
        }
        if s[e] != b'|' {
            return Some(e);
        }
        i = e + 1;
    }
}

// Pieces.
#[cycle(atom_branch_expression_piece)]
fn branch(s: &[u8], at: usize) -> Option<usize>
    requires { at ≤ length s.now }
    ensures { Ends s.now start at start at is_branch_end result }
{
    // No `for`: a piece has any number of bytes.
    let mut i = at;
    while i < s.len() {
        // A character first, since most bytes are one: what follows asks the table again, which the compiler makes one test of.
        if !is_plain(s[i]) && ((s[i] == b'|') | (s[i] == b')')) {
            return Some(i);
        }
        i = piece(s, i)?;
    }
    Some(i)
}

// An atom, and a quantifier or none. A second quantifier is refused here, and not only where the next atom is read, so that the compiler jumps at the first one: with its
// test's bit added to the place, each part waited for the byte before it (at 1,020 bytes of short parts 2.17 ns a byte, and 1.68 so).
#[cycle(atom_branch_expression_piece)]
fn piece(s: &[u8], at: usize) -> Option<usize>
    requires { (at < length s.now) × (is_branch_end (get_or s.now at 0) ≡ false) }
    ensures { Ends s.now start at start (at + 1) any_byte result }
{
    let e = atom(s, at)?;
    if s.len() <= e {
        return Some(e);
    }
    if !is_mark(s[e]) {
        return Some(e);
    }
    if is_mark(byte_at(s, e + 1)) {
        return None;
    }
    Some(e + 1)
}

// A character, an expression in parentheses, a class, or an escape; characters that follow a character are taken with it, since only the last can have a quantifier.
#[cycle(atom_branch_expression_piece)]
fn atom(s: &[u8], at: usize) -> Option<usize>
    requires { (at < length s.now) × (is_branch_end (get_or s.now at 0) ≡ false) }
    ensures { Ends s.now start at atom (at + 1) any_byte result }
{
    let b = s[at];
    if is_plain(b) {
        return Some(plain_end(s, at + 1));
    }
    if b == b'(' {
        let e = expression(s, at + 1)?;
        if s.len() <= e {
            return None;
        }
        return Some(e + 1);
    }
    if b == b'[' {
        return class_end(s, at + 1);
    }
    escape(s, at)
}

// Where a run of characters ends. It differs from `in_class_end` in its test and in the mode that the scan is in: a function that is handed the test would promise
// the same of a test and a mode, and both would stay as the calls of it, each with this contract.
fn plain_end(s: &[u8], at: usize) -> usize
    requires { at ≤ length s.now }
    ensures { Goes s.now atom at atom at result any_byte }
{
    (at..s.len()).find(|i| !is_plain(s[*i])).unwrap_or(s.len())
}

// Whether the whole is an expression.
pub fn is_expression(s: &[u8]) -> bool
    ensures { ExpressionJudged s.now result }
{
    // No `is_some_and`: tried, and what its closure answers is not known here without a clause of its own, with which it is longer than the `match`.
    match expression(s, 0) {
        Some(e) => s.len() <= e,
        None => false,
    }
}
