// A number's decimal digits, from the last to the first.
ghost use Rattle.std.specs.Prelude.{◌≡◌, ◌+◌, ◌<◌};
ghost use Rattle.xsd_write.specs.Puts.{SpellsDecimal};

fn digit(n: u64) -> u8
    requires { n < 10 }
    ensures { result ≡ 48 + n }
{
    48 + n as u8
}

// The digits stand from `from` on, up to the end: an array of twenty and a start, since there is no heap. No `write!`: it puts the digits at the array's start, and that they stand at its
// end is what `spell` has promised since it was first called.
#[derive(Clone, Copy)]
pub struct Digits {
    pub digits: [u8; 20],
    pub from: usize,
}

pub fn spell(n: u64) -> Digits
    ensures { SpellsDecimal n result.digits result.from }
{
    // No `for`: what is left of the number ends the loop, and not the place of the digit.
    let mut digits = [48; 20];
    let mut at = 19;
    let mut rest = n;
    while 10 <= rest {
        digits[at] = digit(rest % 10);
        at -= 1;
        rest = rest / 10;
    }
    digits[at] = digit(rest);
    Digits { digits, from: at }
}
