// Texts: which bytes they may have, a byte of a text, equality, the local name, white space at the ends. `ascii`: the classes and the case of
// letters.
#![tactic(auto)]

pub mod ascii;
pub mod pairs;

ghost use Rattle.std.specs.Prelude.{ℕ, ◌≡◌, ◌≢◌, ◌≤◌, ◌<◌, false, length, get_or, drop};
ghost use Rattle.text.specs.Text.{is_plain, text_by, is_text, is_graph_text, lead_after, contains, first, same, colon, local_name, LocalPart};
ghost use Rattle.text.specs.Trim.{is_white_space, trim_start, trim_end, trimmed};

use pairs::{GraphPairs, Pairs, SheetPairs};

// Whether every byte is below 128.
pub fn is_plain(s: &[u8]) -> bool
    ensures { result ≡ is_plain s.now }
{
    s.iter().fold(0, |all, b| all | *b) < 128
}

// Whether a tape or a sheet may hold the text.
#[tactic(auto, unfolding(crate::specs::Text::is_text))]
pub fn is_text(s: &[u8]) -> bool
    ensures { result ≡ is_text s.now }
{
    is_plain(s) || is_mixed::<SheetPairs>(s)
}

// Whether a graph may hold the text.
#[tactic(auto, unfolding(crate::specs::Text::is_graph_text))]
pub fn is_graph_text(s: &[u8]) -> bool
    ensures { result ≡ is_graph_text s.now }
{
    is_plain(s) || is_mixed::<GraphPairs>(s)
}

// The same, byte by byte: nothing waits at the end for the second byte of its character.
#[tactic(auto, unfolding(crate::specs::Text::lead_after))]
fn is_mixed<P: Pairs>(s: &[u8]) -> bool
    ensures { result ≡ text_by P.rule 0 s.now }
{
    let last = s.iter().fold(
        0,
        |lead, b|
            ensures { result ≡ lead_after P.rule lead b.now }
        { lead_after(lead, *b, P::holds(lead, *b)) },
    );
    last == 0
}

// The byte that waits behind b: 0 for none, 255 where no text goes on so. Numbers, as in the definition: `text_by` begins behind 0, and an enum of the three would be turned
// into them again for each byte. `pair` says whether the byte that waited and b are a character.
#[tactic(auto, unfolding(crate::specs::Text::lead_after, crate::specs::Text::is_plain_byte))]
fn lead_after(lead: u8, b: u8, pair: bool) -> u8
    ensures { result ≡ lead_after (λ l t. pair) lead b }
{
    match (lead, pair) {
        (0, _) => if b < 128 { 0 } else { b },
        (_, true) => 0,
        (_, false) => 255,
    }
}

// The slice's method, with its answer in the words of specs/Text.antt, which callers cite.
pub fn has_byte(s: &[u8], c: u8) -> bool
    ensures { result ≡ contains c s.now }
{
    s.contains(&c)
}

// The byte at i, 0 past the end: no Option, since `first` of callers' contracts is 0 there.
pub fn byte_at(s: &[u8], i: usize) -> u8
    ensures { result ≡ first (drop i s.now) }
{
    s.get(i).copied().unwrap_or(0)
}

// `==`, with its answer in the words of specs/Text.antt, which callers cite.
#[tactic(auto, using(crate::proofs::Laws::Std::same_is))]
pub fn same_text(a: &[u8], b: &[u8]) -> bool
    ensures { result ≡ same a.now b.now }
{
    a == b
}

// How many bytes of a long name are asked for a colon together.
const BLOCK: usize = 16;

// Where the blocks without a colon begin that a name ends with. A `while`: each turn takes a block off the end.
fn blocks_start(name: &[u8]) -> usize
    ensures inside { result ≤ length name.now }
    ensures behind { (k : ℕ) → result ≤ k → k < length name.now → get_or name.now k 0 ≢ colon }
{
    let mut end = name.len();
    while BLOCK <= end && !has_byte(&name[end - BLOCK..end], b':') {
        end -= BLOCK;
    }
    end
}

// The part of a name after its last colon, which stands before an end.
fn behind_colon(name: &[u8], end: usize) -> &[u8]
    requires inside { end ≤ length name.now }
    requires behind { (k : ℕ) → end ≤ k → k < length name.now → get_or name.now k 0 ≢ colon }
    ensures { LocalPart name.entry.ref_ptr name.now result.ref_ptr result.now }
{
    match name[..end].iter().rposition(|b| *b == b':') {
        Some(i) => &name[i + 1..],
        None => name,
    }
}

// The part of a qualified name after its last colon. A long name is asked first whether it has one, and then by blocks: byte by byte from its end on, names of 34 bytes
// without a colon took four times as long (docs/LOOK-BACK.md).
pub fn local_name(name: &[u8]) -> &[u8]
    ensures { LocalPart name.entry.ref_ptr name.now result.ref_ptr result.now }
{
    if name.len() < BLOCK {
        return behind_colon(name, name.len());
    }
    if !has_byte(name, b':') {
        return name;
    }
    behind_colon(name, blocks_start(name))
}

// Whether the local name of a part is the word, which has no colon: no local name is made.
pub fn local_is(part: &[u8], word: &[u8]) -> bool
    requires { contains colon word.now ≡ false }
    ensures { result ≡ same (local_name part.now) word.now }
{
    match part.strip_suffix(word) {
        Some([]) => true,
        Some([.., last]) => *last == b':',
        None => false,
    }
}

// Tab, line feed, carriage return or space: XML's white space, not that of C, which has two more.
#[tactic(auto, unfolding(crate::specs::Trim::is_white_space))]
pub fn is_white_space(b: u8) -> bool
    ensures { result ≡ is_white_space b }
{
    matches!(b, b'\t' | b'\n' | b'\r' | b' ')
}

fn trim_start(s: &[u8]) -> &[u8]
    ensures { result.now ≡ trim_start s.now }
{
    match s.iter().position(|b| !is_white_space(*b)) {
        Some(i) => &s[i..],
        None => &[],
    }
}

fn trim_end(s: &[u8]) -> &[u8]
    ensures { result.now ≡ trim_end s.now }
{
    match s.iter().rposition(|b| !is_white_space(*b)) {
        Some(i) => &s[..i + 1],
        None => &[],
    }
}

#[tactic(auto, unfolding(crate::specs::Trim::trimmed))]
pub fn trimmed(s: &[u8]) -> &[u8]
    ensures { result.now ≡ trimmed s.now }
{
    trim_end(trim_start(s))
}
