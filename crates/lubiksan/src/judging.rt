// The judgement of a pattern exported.
ghost use Rattle.pattern.specs.Call.{PatternIs};

use sheet::refusal::returned_number;

// Gives the number of a pattern, 0, 1, 5, 24 or 25; the place, 0, is stored.
#[unsafe(no_mangle)]
pub extern "C" fn lubiksan_pattern(pattern: &[u8], place: &mut usize) -> u32
    ensures { PatternIs pattern.now result place.new }
{
    *place = 0;
    returned_number(pattern::judge(pattern))
}
