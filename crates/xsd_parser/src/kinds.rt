// Paper 01, "Tape": the kinds of an event, each with its number.
ghost use Rattle.xsd_parser.specs.Kinds.{KindRead};

use sheet::refusal::Refusal;

#[derive(Clone, Copy, PartialEq, Eq, Debug)]
pub enum Kind {
    // "Kind 1 start"
    Start = 1,
    // "2 empty"
    Empty = 2,
    // "3 close"
    Close = 3,
}

// The kind of a number. 3: "kind not 1 to 3".
impl TryFrom<u32> for Kind {
    type Error = Refusal;

    ghost try_from_gives = { KindRead };

    fn try_from(number: u32) -> Result<Kind, Refusal> {
        match number {
            1 => Ok(Kind::Start),
            2 => Ok(Kind::Empty),
            3 => Ok(Kind::Close),
            _ => Err(Refusal::BadRecord),
        }
    }
}
