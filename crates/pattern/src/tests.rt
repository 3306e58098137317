// The characters of a pattern.
ghost use Rattle.std.specs.Prelude.{◌≡◌};
ghost use Rattle.pattern.specs.Grammar.{is_mark, is_in_class};
ghost use Rattle.pattern.specs.Scan.{is_single_char, is_escaped};
ghost use Rattle.pattern.specs.Answers.{class_bit, has_class};

// The classes of each byte: 1 for a character that stands for itself or the dot, 2 for what may stand in a class by itself, 4 for what may stand behind a
// backslash, 8 for a quantifier of one byte. A run over characters looks into memory once for each. A `static`, since an index into a `const` array copies all of it to the stack.
static CLASSES: [u8; 256] = [
    0, 0, 0, 0, 0, 0, 0, 0, 0, 3, 3, 0, 0, 3, 0, 0, 0, 0, 0, 0, 0, 0, 0, 0, 0, 0, 0, 0, 0, 0, 0, 0,
    3, 3, 3, 3, 3, 3, 3, 3, 6, 6, 14, 14, 3, 7, 7, 3, 3, 3, 3, 3, 3, 3, 3, 3, 3, 3, 3, 3, 3, 3, 3,
    14, 3, 3, 3, 7, 7, 3, 3, 3, 3, 7, 3, 3, 3, 3, 3, 3, 3, 3, 3, 7, 3, 3, 3, 7, 3, 3, 3, 4, 4, 4,
    7, 3, 3, 3, 3, 7, 7, 3, 3, 3, 3, 7, 3, 3, 3, 3, 7, 3, 3, 3, 7, 7, 7, 3, 3, 7, 3, 3, 3, 7, 6, 7,
    3, 3, 3, 3, 3, 3, 3, 3, 3, 3, 3, 3, 3, 3, 3, 3, 3, 3, 3, 3, 3, 3, 3, 3, 3, 3, 3, 3, 3, 3, 3, 3,
    3, 3, 3, 3, 3, 3, 3, 3, 3, 3, 3, 3, 3, 3, 3, 3, 3, 3, 3, 3, 3, 3, 3, 3, 3, 3, 3, 3, 3, 3, 3, 3,
    3, 3, 3, 3, 3, 3, 3, 3, 3, 3, 3, 3, 3, 3, 3, 3, 3, 3, 3, 3, 3, 3, 3, 3, 3, 3, 3, 3, 3, 3, 3, 3,
    3, 3, 3, 3, 3, 3, 3, 3, 3, 3, 3, 3, 3, 3, 3, 3, 3, 3, 3, 3, 3, 3, 3, 3, 3, 3, 3, 3, 3, 3, 3, 3,
    3, 3,
];

// The classes, in the order of their bits.
#[derive(Clone, Copy)]
pub enum Class {
    Plain,
    InClass,
    Escaped,
    Mark,
}

// Whether a byte is of a class.
#[inline(always)]
fn in_class(b: u8, class: Class) -> bool
    ensures { result ≡ has_class (class_bit class) b }
{
    (CLASSES[b as usize] >> class as u8) % 2 == 1
}

// What may stand in a class by itself.
pub fn is_in_class(b: u8) -> bool
    ensures { result ≡ is_in_class b }
{
    in_class(b, Class::InClass)
}

// A character that stands for itself, or the dot.
pub fn is_plain(b: u8) -> bool
    ensures { result ≡ is_single_char b }
{
    in_class(b, Class::Plain)
}

// What may stand behind a backslash.
pub fn is_escaped(b: u8) -> bool
    ensures { result ≡ is_escaped b }
{
    in_class(b, Class::Escaped)
}

// A quantifier of one byte.
pub fn is_mark(b: u8) -> bool
    ensures { result ≡ is_mark b }
{
    in_class(b, Class::Mark)
}
