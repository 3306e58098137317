// Why a call refuses: a case for each row of the table of returned numbers, in its order, with its number. 0 is no refusal.
ghost use Rattle.std.specs.Prelude.{◌≡◌};
ghost use Rattle.sheet.specs.Returned.{refusal_number};
ghost use Rattle.sheet.specs.Results.{returned_number};

// "accepted; place is events read, rows used, or 0"
pub const ACCEPTED: u32 = 0;

#[derive(Clone, Copy, PartialEq, Eq, Debug)]
pub enum Refusal {
    // "a rows length not a multiple of 10, below 20 or above 40,960; names above 65,536; tape buffers too long"
    BadLength = 1,
    // "schema sheet not good"
    NotGood = 2,
    // "kind not 1 to 3, record cut short, over 32 attributes, a close with any"
    BadRecord = 3,
    // "pair outside the text or out of order"
    BadPair = 4,
    // "byte above 127 under a pair"; by order 12 one of no character up to U+017F, or of a character that an end of its pair cuts.
    NotAscii = 5,
    // "close with no tag open"
    NoTagOpen = 6,
    // "start with 255 open"
    TooManyOpen = 7,
    // "1,000,000 events done"
    TooManyEvents = 8,
    // "`MissingAttribute`"
    MissingAttribute = 9,
    // "`InvalidAttributeValue`"
    InvalidAttributeValue = 10,
    // "the state after the event needs more rows or names than lent"
    NoRoom = 11,
    // "lowering, no root seen"
    NoRoot = 12,
    // "`UnknownBase`; place is the row of the first such simple type"
    UnknownBase = 13,
    // Order 11: "From now on 14 means fewer than 64"
    ShortScratch = 14,
    // "graph needs more rows or names than lent"
    NoRoomInGraph = 15,
    // "label: length not a multiple of 10, no such row, tag not 5, 7, 9, 10 or 19, .."
    BadLabel = 16,
    // "not well formed"
    Malformed = 17,
    // "the bytes `<!DOCTYPE` with only a well-formed prolog, or nothing, before them"
    Doctype = 18,
    // "marks too short"
    ShortMarks = 19,
    // "two finished types normalise to the same name; the place is the row of the first head, in lowering's order, whose name came before"
    RepeatedName = 20,
    // "not in .. graph form .., or two types of one name"
    GraphForm = 21,
    // "a value XML 1.0 cannot hold in an attribute .., place the first such row"
    NoValue = 22,
    // "text longer than lent"
    TextRoom = 23,
    // "not in the grammar"
    NoPattern = 24,
    // "the bytes `\p`, `\P` or `-[` anywhere or more than 32 bytes `(`, escaped ones too"
    PatternAside = 25,
}

// By hand: std derives no `From` of a discriminant.
impl From<Refusal> for u32 {
    ghost from_gives = { λ refusal number. number ≡ refusal_number refusal };

    fn from(refusal: Refusal) -> u32 {
        refusal as u32
    }
}

// The number that a call returns: 0, or its refusal's.
pub fn returned_number<T: Copy>(answer: Result<T, Refusal>) -> u32
    ensures { result ≡ returned_number answer }
{
    match answer {
        Ok(_) => ACCEPTED,
        Err(refusal) => u32::from(refusal),
    }
}
