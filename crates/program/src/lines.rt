// A text cut at the first place of a byte, for the programs that read their cases from a table.
ghost use Rattle.std.specs.Prelude.{◌≡◌};
ghost use Rattle.program.specs.Lines.{before_first, behind_first};

// What stands before the byte, or all.
pub fn before(s: &[u8], c: u8) -> &[u8]
    ensures { result.now ≡ before_first c s.now }
{
    match s.iter().position(|b| *b == c) {
        Some(end) => &s[..end],
        None => s,
    }
}

// What stands behind the byte, or nothing.
pub fn behind(s: &[u8], c: u8) -> &[u8]
    ensures { result.now ≡ behind_first c s.now }
{
    match s.iter().position(|b| *b == c) {
        Some(end) => &s[end + 1..],
        None => &[],
    }
}
