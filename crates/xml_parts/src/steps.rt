// Steps over a text: words, runs of a class, names, and the marked parts that give no event. A place past the end is taken, and nothing is found there; but for the functions of
// name bytes, which cut the text at the place: that it is inside is a clause, since all that make one have tested it.
ghost use Rattle.std.specs.Prelude.{◌≡◌, ◌≤◌, ◌+◌, ◌-◌, true, false, length, drop, is_some, IfSome, MatchOption};
ghost use Rattle.xml.specs.Classes.{is_name_start, is_name, is_byte_of, begins};
ghost use Rattle.text.specs.Text.{bytes, same};
ghost use Rattle.xml.specs.Steps.{behind, starts_with, literal, many, one_then, spaces, name, leading_name, until, comment, target, instruction_end, instruction, section};
ghost use Rattle.xml.specs.Grammar.{is_xml};
ghost use Rattle.xml_parts.specs.Answers.{Before, GoesAlike, SameUpTo, class_of, moved, start_width, matched};

use crate::classes::{Class, Classes, is_char};
use crate::letters;
use plain_bytes::{CommentRun, Run, SectionRun, same_bytes, skip};

// Whether the word stands at a position. By hand: with the library's `starts_with` the tape took 2 to 15 hundredths more instructions (the bar: the tape is
// no slower in compare/CALLS.md).
pub fn starts(text: &[u8], at: usize, word: &[u8]) -> bool
    ensures { result ≡ starts_with word.now (drop at text.now) }
{
    for (k, b) in word.iter().enumerate() {
        if text.len() <= at + k {
            return false;
        }
        if text[at + k] != *b {
            return false;
        }
    }
    true
}

// No `then`: the sum fits where the word stands there, so that the closure would have a clause of its own. `number::digit_value`, tried so, proved and had as many lines.
pub fn literal(text: &[u8], at: usize, word: &[u8]) -> Option<usize>
    ensures { moved text.now result ≡ literal word.now at (drop at text.now) }
{
    if starts(text, at, word) {
        Some(at + word.len())
    } else {
        None
    }
}

// Behind the bytes of a class that stand at a position. The loop ends in one place: with a `return` from it the tape took a fifth more instructions (the bar: the tape is no slower in
// compare/CALLS.md).
pub fn many(classes: &Classes, text: &[u8], at: usize, class: Class) -> usize
    ensures { behind result (drop result text.now) ≡ many (class_of class) at (drop at text.now) }
{
    let mut end = at;
    for i in at..text.len() {
        if !classes.in_class(class, text[i]) {
            break;
        }
        end = i + 1;
    }
    end
}

#[tactic(auto, unfolding(xml::specs::Steps::spaces))]
pub fn spaces(classes: &Classes, text: &[u8], at: usize) -> usize
    ensures { behind result (drop result text.now) ≡ spaces at (drop at text.now) }
{
    many(classes, text, at, Class::Space)
}

// A byte of one class, then as many of another as stand there.
pub fn one_then(
    classes: &Classes,
    text: &[u8],
    at: usize,
    one: Class,
    class: Class,
) -> Option<usize>
    ensures { moved text.now result ≡ one_then (class_of one) (class_of class) at (drop at text.now) }
{
    if !classes.in_class(one, *text.get(at)?) {
        return None;
    }
    Some(many(classes, text, at + 1, class))
}

// How many bytes the character has that begins a name at a position, if one does.
fn start_width(classes: &Classes, text: &[u8], at: usize) -> Option<usize>
    ensures { MatchOption result (begins is_name_start (drop at text.now) ≡ false) (λ n. (begins is_name_start (drop at text.now) ≡ true) × (n ≡ start_width (drop at text.now))) }
{
    if classes.in_class(Class::NameStart, *text.get(at)?) {
        return Some(1);
    }
    letters::is_start_at(text, at).then_some(2)
}

// Whether a name goes on at a position.
pub fn goes_on(classes: &Classes, text: &[u8], at: usize) -> bool
    ensures { result ≡ begins is_name (drop at text.now) }
{
    classes.is_name(text::byte_at(text, at)) || letters::is_name_at(text, at)
}

// Behind the characters of names that stand at a position: runs of bytes below 128, and between them characters of two bytes. No `for`: a run has any number of
// bytes.
#[cold]
fn long_end(classes: &Classes, text: &[u8], at: usize) -> usize
    ensures { result ≡ at + length (leading_name (drop at text.now)) }
{
    let mut end = many(classes, text, at, Class::Name);
    while letters::is_name_at(text, end) {
        end = many(classes, text, end + 2, Class::Name);
    }
    end
}

// Behind the name bytes below 128 that stand at a position, eight at a time with one test of the length. A `while`: the place where it ends is the answer,
// which a chain over chunks would have to count again. Inlined: a call for each name took as many instructions as the eight save.
#[inline(always)]
fn name_bytes(classes: &Classes, text: &[u8], at: usize) -> usize
    requires { at ≤ length text.now }
    ensures { behind result (drop result text.now) ≡ many (is_byte_of is_name) at (drop at text.now) }
{
    let mut i = at;
    while 8 <= text.len() - i {
        match text[i..i + 8].iter().position(|b| !classes.is_name(*b)) {
            Some(k) => return i + k,
            None => i += 8,
        }
    }
    many(classes, text, i, Class::Name)
}

// Behind the characters of names that stand at a position, where most names are bytes below 128 alone.
#[inline(always)]
fn name_end(classes: &Classes, text: &[u8], at: usize) -> usize
    requires { at ≤ length text.now }
    ensures { result ≡ at + length (leading_name (drop at text.now)) }
{
    let end = name_bytes(classes, text, at);
    if text::byte_at(text, end) < 128 {
        end
    } else {
        long_end(classes, text, at)
    }
}

// A name with any first character.
#[cold]
fn long_name(classes: &Classes, text: &[u8], at: usize) -> Option<usize>
    ensures { moved text.now result ≡ name at (drop at text.now) }
{
    let first = start_width(classes, text, at)?;
    Some(long_end(classes, text, at + first))
}

// Inlined: as a call of its own the tape of an ASCII text took a fiftieth more instructions (the bar of `letters::point_at`).
#[inline(always)]
pub fn name(classes: &Classes, text: &[u8], at: usize) -> Option<usize>
    ensures { moved text.now result ≡ name at (drop at text.now) }
{
    if classes.in_class(Class::NameStart, *text.get(at)?) {
        return Some(name_end(classes, text, at + 1));
    }
    long_name(classes, text, at)
}

// The characters of names that stand at a position.
fn leading_name<'a>(classes: &Classes, text: &'a [u8], at: usize) -> &'a [u8]
    ensures { result.now ≡ leading_name (drop at text.now) }
{
    let from = at.min(text.len());
    let end = long_end(classes, text, from);
    &text[from..end]
}

// Behind the name at `a`, where the name at `b` is the same: with any characters of names.
#[cold]
fn same_long(classes: &Classes, text: &[u8], a: usize, b: usize) -> Option<usize>
    ensures alike { is_some result ≡ same (leading_name (drop a text.now)) (leading_name (drop b text.now)) }
    ensures ends { IfSome result (λ e. e ≡ a + length (leading_name (drop a text.now))) }
{
    let name = leading_name(classes, text, a);
    text::same_text(name, leading_name(classes, text, b)).then_some(a + name.len())
}

// The same, where most names are bytes below 128 alone. By an index: each turn reads two places, and where the first name ends is the answer.
fn same_run(classes: &Classes, text: &[u8], a: usize, b: usize) -> Option<usize>
    ensures alike { is_some result ≡ same (leading_name (drop a text.now)) (leading_name (drop b text.now)) }
    ensures ends { IfSome result (λ e. e ≡ a + length (leading_name (drop a text.now))) }
{
    let beside = text.len().saturating_sub(a.max(b));
    for k in 0..beside {
        let (x, y) = (text[a + k], text[b + k]);
        if !classes.is_name(x) {
            if x < 128 && y < 128 {
                return (!classes.is_name(y)).then_some(a + k);
            }
            break;
        }
        if x != y {
            return None;
        }
    }
    same_long(classes, text, a, b)
}

// Two places, up to which two names are the same.
#[derive(Clone, Copy)]
pub struct Places(pub usize, pub usize);

// Where the names at two places end or differ, as far as they are bytes below 128. By an index, like `same_run`, which is not written over it: with the bytes at both places read again
// behind the loop the tape of pain.001.001.09 took 591,290 instructions and not 586,327 (the bar: the tape is no slower in compare/CALLS.md).
pub fn same_end(classes: &Classes, text: &[u8], a: usize, b: usize) -> Places
    ensures { SameUpTo text.now a b result.0 result.1 }
{
    let beside = text.len().saturating_sub(a.max(b));
    for k in 0..beside {
        let (x, y) = (text[a + k], text[b + k]);
        if !classes.is_name(x) || x != y {
            return Places(a + k, b + k);
        }
    }
    Places(a + beside, b + beside)
}

// Whether the names at two positions are the same. Most keys of a tag differ in their first byte.
pub fn same_name(classes: &Classes, text: &[u8], a: usize, b: usize) -> bool
    ensures { result ≡ same (leading_name (drop a text.now)) (leading_name (drop b text.now)) }
{
    let (x, y) = (text::byte_at(text, a), text::byte_at(text, b));
    if x != y && classes.is_name(x) {
        return false;
    }
    same_run(classes, text, a, b).is_some()
}

// The bytes from a place up to another one are looked at one by one: what the search for the word comes to, where one of them decides it. Inlined in any case, so that each search has its
// word at hand; today's compiler does so without the attribute too.
#[inline(always)]
fn look(text: &[u8], from: usize, to: usize, word: &[u8]) -> Option<Option<usize>>
    requires { (from ≤ to) × (to ≤ length text.now) }
    ensures { MatchOption result (until word.now to (drop to text.now) ≡ until word.now from (drop from text.now))
        (λ found. moved text.now found ≡ until word.now from (drop from text.now)) }
{
    for i in from..to {
        if starts(text, i, word) {
            return Some(Some(i + word.len()));
        }
        if !is_char(text[i] as u32) {
            return Some(None);
        }
    }
    None
}

// Behind the first place of the word, with only characters before it.
pub fn until(text: &[u8], at: usize, word: &[u8]) -> Option<usize>
    ensures { moved text.now result ≡ until word.now at (drop at text.now) }
{
    if text.len() <= at {
        return None;
    }
    look(text, at, text.len(), word)?
}

// How many bytes are looked at one by one before the next run is tried: twice as many as the last time, up to 1,024, where the run had fewer than ten bytes, and else one.
fn next_stretch(stretch: usize, passed: usize) -> usize
    requires { 1 ≤ stretch }
    ensures { 1 ≤ result }
{
    if passed < 10 { 2 * stretch.min(512) } else { 1 }
}

// The same over the bytes of a run, which neither begin the word nor need a look, eight at a time. Where runs are short a run is tried less often: tried behind each byte, a comment with a
// hyphen at each second byte took four times as long (docs/LOOK-BACK.md). A `while`: a turn goes on behind a run of any length.
fn until_over<R: Run>(text: &[u8], at: usize, word: &[u8]) -> Option<usize>
    requires { Before R.is_in word.now }
    ensures { moved text.now result ≡ until word.now at (drop at text.now) }
{
    let mut i = skip::<R>(text, at);
    let mut stretch: usize = 1;
    while i < text.len() {
        let to = text.len().min(i.saturating_add(stretch));
        if let Some(found) = look(text, i, to, word) {
            return found;
        }
        let next = skip::<R>(text, to);
        stretch = next_stretch(stretch, next - to);
        i = next;
    }
    None
}

#[tactic(auto, unfolding(xml::specs::Steps::comment, text::specs::Text::bytes))]
pub fn comment(text: &[u8], at: usize) -> Option<usize>
    ensures { moved text.now result ≡ comment at (drop at text.now) }
{
    let inside = literal(text, at, b"<!--")?;
    let end = until_over::<CommentRun>(text, inside, b"--")?;
    literal(text, end, b">")
}

// Whether a name is `xml` in any case.
pub fn is_xml(name: &[u8]) -> bool
    ensures { result ≡ is_xml name.now }
{
    name.eq_ignore_ascii_case(b"xml")
}

pub fn pi_target(classes: &Classes, text: &[u8], at: usize) -> Option<usize>
    ensures { moved text.now result ≡ target at (drop at text.now) }
{
    let end = name(classes, text, at)?;
    if is_xml(&text[at..end]) {
        return None;
    }
    Some(end)
}

#[tactic(auto, unfolding(xml::specs::Steps::instruction_end, text::specs::Text::bytes))]
pub fn instruction_end(text: &[u8], at: usize) -> Option<usize>
    ensures { moved text.now result ≡ instruction_end at (drop at text.now) }
{
    if text::is_white_space(text::byte_at(text, at)) {
        until(text, at, b"?>")
    } else {
        literal(text, at, b"?>")
    }
}

#[tactic(auto, unfolding(xml::specs::Steps::instruction, text::specs::Text::bytes))]
pub fn instruction(classes: &Classes, text: &[u8], at: usize) -> Option<usize>
    ensures { moved text.now result ≡ instruction at (drop at text.now) }
{
    let inside = literal(text, at, b"<?")?;
    let end = pi_target(classes, text, inside)?;
    instruction_end(text, end)
}

// Not inlined: where it was, the loop over text beside it had fewer registers, and long text took 383,002 instructions and not 375,441 (the bar: the tape is no slower in
// compare/CALLS.md).
#[inline(never)]
#[tactic(auto, unfolding(xml::specs::Steps::section, text::specs::Text::bytes))]
pub fn section(text: &[u8], at: usize) -> Option<usize>
    ensures { moved text.now result ≡ section at (drop at text.now) }
{
    let inside = literal(text, at, b"<![CDATA[")?;
    until_over::<SectionRun>(text, inside, b"]]>")
}

// How many bytes of the names at two places are alike, as far as eight at a time are, all of them name bytes below 128. A `while`: where it ends is the answer. Inlined, like `name_bytes`.
#[inline(always)]
fn alike_bytes(classes: &Classes, text: &[u8], a: usize, b: usize) -> usize
    ensures { GoesAlike text.now a b result }
{
    let beside = text.len().saturating_sub(a.max(b));
    let mut k = 0;
    while 8 <= beside - k {
        let (x, y) = (&text[a + k..a + k + 8], &text[b + k..b + k + 8]);
        if !same_bytes(x, y) || !x.iter().all(|b| classes.is_name(*b)) {
            return k;
        }
        k += 8;
    }
    k
}

// Behind the name at a position, where it is the name at another one. The two are held against each other while they are read, so that nothing behind the first byte below 128 that differs is read: eight
// bytes at a time, and then byte by byte: by `same_run` alone the tape of pain.001.001.09 took about 15,000 instructions more, of 574,265 (the bar: the tape is no slower in compare/CALLS.md).
pub fn matched_name(classes: &Classes, text: &[u8], at: usize, top: usize) -> Option<usize>
    ensures { moved text.now result ≡ matched text.now at top }
{
    start_width(classes, text, at)?;
    let same = alike_bytes(classes, text, at, top);
    same_run(classes, text, at + same, top + same)
}
