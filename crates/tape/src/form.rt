// The form of a record (paper 01, "Tape"), judged for the refusal 3.
ghost use Rattle.std.specs.Prelude.{◌≡◌};
ghost use Rattle.xsd_parser.specs.Tape.{form_test};

use sheet::limits;
use xsd_parser::kinds::Kind;

// 3: whether a record of this kind and number of attributes may stand before so many numbers. Any number, as the definition has it: of one that is no kind's it is false.
pub fn has_form(kind: u32, count: usize, left: usize) -> bool
    ensures { result ≡ form_test kind count left }
{
    if limits::ATTRIBUTES < count {
        return false;
    }
    let Ok(kind) = Kind::try_from(kind) else {
        return false;
    };
    match kind {
        Kind::Start | Kind::Empty => 2 * (1 + 2 * count) <= left,
        Kind::Close => count == 0,
    }
}
