// The classes of characters.
ghost use Rattle.std.specs.Prelude.{◌≡◌, ◌<◌};
ghost use Rattle.xml.specs.Classes.{is_char, is_name, is_byte_of};
ghost use Rattle.xml_parts.specs.Answers.{class_of, class_table, has_bit};

#[derive(Clone, Copy)]
pub enum Class {
    Space,
    NameStart,
    Name,
    Digit,
    Letter,
    Encoding,
    InText,
    InValue,
}

// Whether a code point is a character. The range of most is asked first: behind the three that stand alone the text of an instruction took 1.8 times the instructions. The ranges are tests
// of their own: with all in one `matches!` a text with comments took a thirtieth more instructions
// (the bar: the tape is no slower in compare/CALLS.md).
#[tactic(auto, unfolding(xml::specs::Classes::is_char, text::specs::Text::between))]
pub fn is_char(c: u32) -> bool
    ensures { result ≡ is_char c }
{
    (32..=55295).contains(&c)
        || matches!(c, 9 | 10 | 13)
        || (57344..=65533).contains(&c)
        || (65536..=1114111).contains(&c)
}

// The classes of each byte, a bit for each class.
const CLASSES: [u8; 256] = [
    0, 0, 0, 0, 0, 0, 0, 0, 0, 193, 193, 0, 0, 193, 0, 0, 0, 0, 0, 0, 0, 0, 0, 0, 0, 0, 0, 0, 0, 0,
    0, 0, 193, 192, 64, 192, 192, 192, 0, 64, 192, 192, 192, 192, 192, 228, 228, 192, 236, 236,
    236, 236, 236, 236, 236, 236, 236, 236, 198, 192, 0, 192, 192, 192, 192, 246, 246, 246, 246,
    246, 246, 246, 246, 246, 246, 246, 246, 246, 246, 246, 246, 246, 246, 246, 246, 246, 246, 246,
    246, 246, 246, 192, 192, 128, 192, 230, 192, 246, 246, 246, 246, 246, 246, 246, 246, 246, 246,
    246, 246, 246, 246, 246, 246, 246, 246, 246, 246, 246, 246, 246, 246, 246, 246, 192, 192, 192,
    192, 192, 192, 192, 192, 192, 192, 192, 192, 192, 192, 192, 192, 192, 192, 192, 192, 192, 192,
    192, 192, 192, 192, 192, 192, 192, 192, 192, 192, 192, 192, 192, 192, 192, 192, 192, 192, 192,
    192, 192, 192, 192, 192, 192, 192, 192, 192, 192, 192, 192, 192, 192, 192, 192, 192, 192, 192,
    192, 192, 192, 192, 192, 192, 192, 192, 192, 192, 192, 192, 192, 192, 192, 192, 192, 192, 192,
    192, 192, 192, 192, 192, 192, 192, 192, 192, 192, 192, 192, 192, 192, 192, 192, 192, 192, 192,
    192, 192, 192, 192, 192, 192, 192, 192, 192, 192, 192, 192, 192, 192, 192, 192, 192, 192, 192,
    192, 192, 192, 192, 192, 192, 192, 192, 192, 192, 192, 192, 192, 192, 192, 192,
];

// The test of a byte's class in `pattern` is a line of its own: neither crate stands on the other, and its table has other classes.
fn has_bit(flags: u8, k: u8) -> bool
    requires { k < 8 }
    ensures { result ≡ has_bit flags k }
{
    (flags >> k) % 2 == 1
}

// The table, which a call lays down once and lends to all that look at bytes: a run over a class is then one look into memory for each byte. It is lent
// beside the text and not in one struct with it: the steps over words and characters read no class, and the contract of each other step would say
// `source.now.text.now` where it says `text.now`. Tried as a `static` that nobody is handed, as in `pattern`: proved, and the tape took 585,607 instructions on
// pain.001.001.09 and 643,120 on the mixed text, in the place of 574,265 and 617,547 (the bar: 0.95 of rapidxml on ISO schemas, docs/DECISIONS.md, 241).
#[derive(Drop)]
pub struct Classes {
    bits: [u8; 256],
    ghost table: { bits ≡ class_table },
}

impl Classes {
    pub fn new() -> Classes {
        Classes { bits: CLASSES }
    }

    pub fn in_class(&self, class: Class, b: u8) -> bool
        ensures { result ≡ class_of class b }
    {
        has_bit(self.bits[b as usize], class as u8)
    }

    pub fn is_name(&self, b: u8) -> bool
        ensures { result ≡ is_byte_of is_name b }
    {
        self.in_class(Class::Name, b)
    }
}
