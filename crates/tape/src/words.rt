// The word of a tag and the key of an attribute, by a local name: by its length first, so that few words are compared.
ghost use Rattle.std.specs.Prelude.{◌≡◌, [], ◌∷◌, length, false};
ghost use Rattle.text.specs.Text.{contains, colon, local_name};
ghost use Rattle.xsd_parser.specs.declared.words.Word.{Word};
ghost use Rattle.xsd_parser.specs.Words.{found, word_of};
ghost use Rattle.tape.specs.Keys.{known_word, key_number, key_of};

use crate::short::same_short;
use text::local_name;
use xsd_parser::words::{FacetWord, Word};

// The keys of attributes that are looked up, in the order of their places.
#[derive(Clone, Copy, PartialEq, Eq, Debug)]
pub enum Key {
    Name,
    Type,
    Base,
    Value,
    MinOccurs,
    MaxOccurs,
    Use,
    Namespace,
    TargetNamespace,
}

// What stands for a text, where the name is the text.
fn value_if<T: Copy>(name: &[u8], text: &[u8], value: T) -> Option<T>
    ensures { result ≡ found None ((text.now, Some value) ∷ []) name.now }
{
    same_short(name, text).then_some(value)
}

// The word of a facet, where the name is its text.
fn facet_if(name: &[u8], text: &[u8], facet: FacetWord) -> Option<Word>
    ensures { result ≡ found None ((text.now, Some (Word.Facet facet)) ∷ []) name.now }
{
    value_if(name, text, Word::Facet(facet))
}

// The word that a name of 9 bytes is; one of 11; one of 12. The three differ in their texts alone, which are all that they say.
fn nine_word(name: &[u8]) -> Option<Word>
    requires { length name.now ≡ 9 }
    ensures { result ≡ known_word name.now }
{
    facet_if(name, b"minLength", FacetWord::MinLength)
        .or(facet_if(name, b"maxLength", FacetWord::MaxLength))
        .or(value_if(name, b"extension", Word::Extension))
        .or(value_if(name, b"attribute", Word::Attribute))
}

fn eleven_word(name: &[u8]) -> Option<Word>
    requires { length name.now ≡ 11 }
    ensures { result ≡ known_word name.now }
{
    value_if(name, b"complexType", Word::ComplexType)
        .or(value_if(name, b"restriction", Word::Restriction))
        .or(facet_if(name, b"enumeration", FacetWord::Enumeration))
        .or(facet_if(name, b"totalDigits", FacetWord::TotalDigits))
}

fn twelve_word(name: &[u8]) -> Option<Word>
    requires { length name.now ≡ 12 }
    ensures { result ≡ known_word name.now }
{
    facet_if(name, b"minInclusive", FacetWord::MinInclusive).or(facet_if(
        name,
        b"maxInclusive",
        FacetWord::MaxInclusive,
    ))
}

// The word that a name without a prefix is, if it is one. No `match` on the texts themselves: of such a pattern the check knows only the length.
fn known_word(name: &[u8]) -> Option<Word>
    ensures { result ≡ known_word name.now }
{
    match name.len() {
        3 => value_if(name, b"any", Word::Any),
        6 => value_if(name, b"schema", Word::Schema).or(value_if(name, b"choice", Word::Choice)),
        7 => value_if(name, b"element", Word::Element).or(facet_if(
            name,
            b"pattern",
            FacetWord::Pattern,
        )),
        8 => value_if(name, b"sequence", Word::Sequence),
        9 => nine_word(name),
        10 => value_if(name, b"simpleType", Word::SimpleType),
        11 => eleven_word(name),
        12 => twelve_word(name),
        13 => value_if(name, b"simpleContent", Word::SimpleContent),
        14 => facet_if(name, b"fractionDigits", FacetWord::FractionDigits),
        _ => None,
    }
}

// What stands behind a prefix of two letters, as in most schemas, or else the whole name: the local name, if it has no colon.
fn behind_two(name: &[u8]) -> &[u8]
    ensures { contains colon result.now ≡ false → local_name name.now ≡ result.now }
{
    if 2 < name.len() && name[2] == b':' {
        return &name[3..];
    }
    name
}

// The word of any name, whose colons are looked for. Never inlined: most names are words with a prefix of two letters, or with none.
#[inline(never)]
fn any_word(name: &[u8]) -> Word
    ensures { result ≡ word_of (local_name name.now) }
{
    known_word(local_name(name)).unwrap_or(Word::Other)
}

// The word of a tag's name. What is a word has no colon.
pub fn word_of(name: &[u8]) -> Word
    ensures { result ≡ word_of (local_name name.now) }
{
    if let Some(word) = known_word(behind_two(name)) {
        return word;
    }
    any_word(name)
}

// The key that a name without a prefix is, if it is one.
fn plain_key(name: &[u8]) -> Option<Key>
    ensures { key_number result ≡ key_of name.now }
{
    match name.len() {
        3 => value_if(name, b"use", Key::Use),
        4 => value_if(name, b"name", Key::Name)
            .or(value_if(name, b"type", Key::Type))
            .or(value_if(name, b"base", Key::Base)),
        5 => value_if(name, b"value", Key::Value),
        9 => value_if(name, b"minOccurs", Key::MinOccurs)
            .or(value_if(name, b"maxOccurs", Key::MaxOccurs))
            .or(value_if(name, b"namespace", Key::Namespace)),
        15 => value_if(name, b"targetNamespace", Key::TargetNamespace),
        _ => None,
    }
}

// The key of an attribute, if it is one of the nine. What is a key has no colon.
pub fn key_of(name: &[u8]) -> Option<Key>
    ensures { key_number result ≡ key_of (local_name name.now) }
{
    plain_key(name).or_else(|| plain_key(local_name(name)))
}
