// The tape of a schema text exported.
ghost use Rattle.xml.specs.Call.{TapeIs};

use rows::answers::told;

// Writes the tape of a schema text into the marks and gives the number; the place, the marks used, is stored.
#[unsafe(no_mangle)]
pub extern "C" fn lubiksan_tape(text: &[u8], marks: &mut [u32], place: &mut usize) -> u32
    ensures { TapeIs text.now marks.old result place.new marks.new }
{
    told(xml_text::call::tape_of(text, marks), place)
}
