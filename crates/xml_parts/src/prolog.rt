// What may stand around the root.
ghost use Rattle.std.specs.Prelude.{◌≡◌, [], ◌∷◌, length, drop};
ghost use Rattle.xml.specs.Prolog.{eq, quoted, declared, optional, declaration, is_misc, misc_part, misc, is_declaration, prolog};
ghost use Rattle.xml.specs.Steps.{behind, spaces};
ghost use Rattle.xml_parts.specs.Answers.{moved, body_of};

use crate::classes::{Class, Classes};
use crate::steps::{comment, goes_on, instruction, literal, one_then, spaces, starts};
use crate::values::is_quote;

// What stands between the quotes of a part of the declaration. An enum, and no type parameter or closure for the step: `quoted` and `body_end` are public functions of the
// beginning that take it, and three unit types would say in three impls, with a ghost member and a law each, what three arms of one `match` say.
#[derive(Clone, Copy)]
pub enum Body {
    Version,
    Encoding,
    Standalone,
}

// Behind the white space at a position, where most often one space stands and a byte above all white space behind it.
fn few_spaces(classes: &Classes, text: &[u8], at: usize) -> usize
    ensures { behind result (drop result text.now) ≡ spaces at (drop at text.now) }
{
    if text::byte_at(text, at) == b' ' && b' ' < text::byte_at(text, at + 1) {
        return at + 1;
    }
    spaces(classes, text, at)
}

// Cold: most keys have `=` and a quote right behind them, where it is not called.
#[cold]
#[tactic(auto, unfolding(xml::specs::Prolog::eq, text::specs::Text::bytes))]
pub fn eq(classes: &Classes, text: &[u8], at: usize) -> Option<usize>
    ensures { moved text.now result ≡ eq at (drop at text.now) }
{
    let sign = few_spaces(classes, text, at);
    let behind = literal(text, sign, b"=")?;
    Some(few_spaces(classes, text, behind))
}

#[tactic(auto, unfolding(xml::specs::Prolog::version_number, xml::specs::Prolog::encoding_name, xml::specs::Prolog::yes_or_no, text::specs::Text::bytes))]
pub fn body_end(classes: &Classes, text: &[u8], at: usize, inner: Body) -> Option<usize>
    ensures { moved text.now result ≡ body_of inner at (drop at text.now) }
{
    match inner {
        Body::Version => {
            let digits = literal(text, at, b"1.")?;
            one_then(classes, text, digits, Class::Digit, Class::Digit)
        }
        Body::Encoding => one_then(classes, text, at, Class::Letter, Class::Encoding),
        Body::Standalone => {
            if starts(text, at, b"yes") {
                return literal(text, at, b"yes");
            }
            literal(text, at, b"no")
        }
    }
}

pub fn quoted(classes: &Classes, text: &[u8], at: usize, inner: Body) -> Option<usize>
    ensures { moved text.now result ≡ quoted (body_of inner) at (drop at text.now) }
{
    let quote = *text.get(at)?;
    if !is_quote(quote) {
        return None;
    }
    let end = body_end(classes, text, at + 1, inner)?;
    literal(text, end, &[quote])
}

#[tactic(auto, unfolding(xml::specs::Prolog::declared, xml::specs::Steps::space))]
pub fn declared(
    classes: &Classes,
    text: &[u8],
    at: usize,
    word: &[u8],
    inner: Body,
) -> Option<usize>
    ensures { moved text.now result ≡ declared word.now (body_of inner) at (drop at text.now) }
{
    let start = one_then(classes, text, at, Class::Space, Class::Space)?;
    let sign = literal(text, start, word)?;
    let quote = eq(classes, text, sign)?;
    quoted(classes, text, quote, inner)
}

#[tactic(auto, unfolding(xml::specs::Prolog::optional))]
pub fn optional(
    classes: &Classes,
    text: &[u8],
    at: usize,
    word: &[u8],
    inner: Body,
) -> Option<usize>
    ensures { moved text.now result ≡ optional word.now (body_of inner) at (drop at text.now) }
{
    if starts(text, spaces(classes, text, at), word) {
        return declared(classes, text, at, word, inner);
    }
    Some(at)
}

#[tactic(auto, unfolding(xml::specs::Prolog::declaration, text::specs::Text::bytes))]
pub fn declaration(classes: &Classes, text: &[u8], at: usize) -> Option<usize>
    ensures { moved text.now result ≡ declaration at (drop at text.now) }
{
    let version = literal(text, at, b"<?xml")?;
    let encoding = declared(classes, text, version, b"version", Body::Version)?;
    let standalone = optional(classes, text, encoding, b"encoding", Body::Encoding)?;
    let end = optional(classes, text, standalone, b"standalone", Body::Standalone)?;
    literal(text, spaces(classes, text, end), b"?>")
}

// Whether a comment or an instruction stands at a position. A line, as `is_marked` of xml_text with other words, which one function would be handed.
#[tactic(auto, unfolding(xml::specs::Prolog::is_misc, text::specs::Text::bytes))]
pub fn is_misc(text: &[u8], at: usize) -> bool
    ensures { result ≡ is_misc (drop at text.now) }
{
    starts(text, at, b"<!--") | starts(text, at, b"<?")
}

#[tactic(auto, unfolding(xml::specs::Prolog::misc_part, text::specs::Text::bytes))]
pub fn misc_part(classes: &Classes, text: &[u8], at: usize) -> Option<usize>
    ensures { moved text.now result ≡ misc_part at (drop at text.now) }
{
    if starts(text, at, b"<!--") {
        comment(text, at)
    } else {
        instruction(classes, text, at)
    }
}

// Comments, instructions and white space, as many as stand there. No `for`: a part has any number of bytes.
pub fn misc(classes: &Classes, text: &[u8], at: usize) -> Option<usize>
    ensures { moved text.now result ≡ misc at (drop at text.now) }
{
    let mut i = spaces(classes, text, at);
    while is_misc(text, i) {
        let behind = misc_part(classes, text, i)?;
        i = spaces(classes, text, behind);
    }
    Some(i)
}

#[tactic(auto, unfolding(xml::specs::Prolog::is_declaration, text::specs::Text::bytes))]
pub fn is_declaration(classes: &Classes, text: &[u8]) -> bool
    ensures { result ≡ is_declaration text.now }
{
    starts(text, 0, b"<?xml") && !goes_on(classes, text, 5)
}

#[tactic(auto, unfolding(xml::specs::Prolog::prolog))]
pub fn prolog(classes: &Classes, text: &[u8]) -> Option<usize>
    ensures { moved text.now result ≡ prolog 0 text.now }
{
    if is_declaration(classes, text) {
        let behind = declaration(classes, text, 0)?;
        return misc(classes, text, behind);
    }
    misc(classes, text, 0)
}
