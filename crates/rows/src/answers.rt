// What a call answers: its place, or why it refuses and where.
ghost use Rattle.std.specs.Prelude.{◌≡◌};
ghost use Rattle.sheet.specs.Calls.{answered};
ghost use Rattle.rows.specs.Answers.{answer_of};

use sheet::refusal::{ACCEPTED, Refusal};

// A call's place, or its refusal.
pub type Answer = Result<usize, Refused>;

// A refusal and its place.
#[derive(Clone, Copy)]
pub struct Refused {
    pub refusal: Refusal,
    pub place: usize,
}

// Most refusals have the place 0.
impl From<Refusal> for Refused {
    ghost from_gives = { λ refusal refused. refused ≡ record { refusal = refusal; place = 0 } };

    fn from(refusal: Refusal) -> Refused {
        Refused { refusal, place: 0 }
    }
}

// The number of an answer, with the place stored: what a call of C gives.
pub fn told(answer: Answer, place: &mut usize) -> u32
    ensures { answered result place.new ≡ answer_of answer }
{
    match answer {
        Ok(at) => {
            *place = at;
            ACCEPTED
        }
        Err(refused) => {
            *place = refused.place;
            u32::from(refused.refusal)
        }
    }
}
