// The built-in names: 001, `map_builtin`. The 38 names stand once, in the sequence of XML Schema Part 2 (order 9), each with its type. The slots lead to
// them, as the list of specs/Builtin.antt gives them.
#![tactic(auto)]

ghost use Rattle.std.specs.Prelude.{◌≡◌, ◌<◌, length, map, get_or};
ghost use Rattle.builtin.specs.Builtin.{map_builtin, reference};
ghost use Rattle.builtin.specs.Answers.{of_builtin, listed_entry, named_entry, entry_at, slot_of, builtin_place};

use text::{byte_at, local_name};

// The discriminants are the numbers of type references.
#[derive(Clone, Copy, PartialEq, Eq)]
pub enum Builtin {
    String = 1,
    Bool = 2,
    Decimal = 3,
    Date = 4,
    DateTime = 5,
}

static BUILTINS: [(&[u8], Builtin); 38] = [
    (b"string", Builtin::String),
    (b"boolean", Builtin::Bool),
    (b"decimal", Builtin::Decimal),
    (b"float", Builtin::Decimal),
    (b"double", Builtin::Decimal),
    (b"duration", Builtin::String),
    (b"dateTime", Builtin::DateTime),
    (b"time", Builtin::String),
    (b"date", Builtin::Date),
    (b"gYearMonth", Builtin::String),
    (b"gYear", Builtin::String),
    (b"gMonthDay", Builtin::String),
    (b"gDay", Builtin::String),
    (b"gMonth", Builtin::String),
    (b"hexBinary", Builtin::String),
    (b"base64Binary", Builtin::String),
    (b"anyURI", Builtin::String),
    (b"normalizedString", Builtin::String),
    (b"token", Builtin::String),
    (b"language", Builtin::String),
    (b"NMTOKEN", Builtin::String),
    (b"Name", Builtin::String),
    (b"NCName", Builtin::String),
    (b"ID", Builtin::String),
    (b"IDREF", Builtin::String),
    (b"integer", Builtin::Decimal),
    (b"nonPositiveInteger", Builtin::Decimal),
    (b"negativeInteger", Builtin::Decimal),
    (b"long", Builtin::Decimal),
    (b"int", Builtin::Decimal),
    (b"short", Builtin::Decimal),
    (b"byte", Builtin::Decimal),
    (b"nonNegativeInteger", Builtin::Decimal),
    (b"unsignedLong", Builtin::Decimal),
    (b"unsignedInt", Builtin::Decimal),
    (b"unsignedShort", Builtin::Decimal),
    (b"unsignedByte", Builtin::Decimal),
    (b"positiveInteger", Builtin::Decimal),
];

// For each slot the place in the list of the name that has it.
static PLACES: [Option<usize>; 65] = [
    None,
    Some(23),
    None,
    Some(19),
    None,
    Some(27),
    Some(35),
    Some(28),
    Some(4),
    None,
    None,
    None,
    Some(18),
    None,
    Some(30),
    None,
    Some(29),
    None,
    None,
    Some(24),
    None,
    Some(22),
    None,
    Some(31),
    Some(9),
    None,
    Some(16),
    Some(11),
    Some(17),
    Some(7),
    Some(34),
    Some(32),
    None,
    Some(26),
    Some(12),
    Some(37),
    None,
    Some(5),
    Some(36),
    None,
    None,
    Some(6),
    None,
    Some(1),
    None,
    Some(8),
    Some(3),
    None,
    Some(33),
    Some(25),
    Some(20),
    None,
    Some(0),
    Some(13),
    None,
    None,
    None,
    Some(10),
    Some(14),
    Some(21),
    None,
    Some(15),
    Some(2),
    None,
    None,
];

// The slot of a word: all 38 names have different ones. The last is that of a word which is longer than any name.
fn slot_of(word: &[u8]) -> usize
    ensures { result ≡ slot_of word.now }
{
    let n = word.len();
    if 18 < n {
        return 64;
    }
    let first = byte_at(word, 0) as usize;
    let fourth = byte_at(word, 3) as usize;
    let ninth = byte_at(word, 8) as usize;
    (47 * n + 11 * first + fourth + 33 * ninth) % 64
}

// Where in the list the one name stands that the word can be.
fn builtin_place(word: &[u8]) -> Option<usize>
    ensures { result ≡ builtin_place word.now }
{
    PLACES[slot_of(word)]
}

fn entry_of(list: &[(&'static [u8], Builtin)], k: usize) -> (&'static [u8], Builtin)
    requires { k < length list.now }
    ensures { listed_entry result ≡ get_or (map listed_entry list.now) k (listed_entry result) }
{
    list[k]
}

// The name and the type at a place in the list.
fn entry_at(k: usize) -> (&'static [u8], Builtin)
    requires { k < 38 }
    ensures { listed_entry result ≡ named_entry (entry_at k) }
{
    entry_of(&BUILTINS, k)
}

pub fn map_builtin(name: &[u8]) -> Option<Builtin>
    ensures { of_builtin result ≡ map_builtin name.now }
{
    let word = local_name(name);
    let (builtin_name, builtin) = entry_at(builtin_place(word)?);
    (word == builtin_name).then_some(builtin)
}

// The number of a type reference: 0 named, 1 String, 2 Bool, 3 Decimal, 4 Date, 5 DateTime.
pub fn reference_number(b: Option<Builtin>) -> u32
    ensures { result ≡ reference (of_builtin b) }
{
    match b {
        Some(builtin) => builtin as u32,
        None => 0,
    }
}
