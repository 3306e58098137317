// Writing back exported.
ghost use Rattle.sheet.specs.Calls.{sheet};
ghost use Rattle.xsd_written.specs.Call.{WriteIs};

use rows::answers::told;

// Writes a schema sheet's finished part as schema text and gives the number; the place, the text's length or the row of a value that XML cannot hold, is
// stored.
#[unsafe(no_mangle)]
pub extern "C" fn lubiksan_write(
    rows: &[u32],
    names: &[u8],
    text: &mut [u8],
    place: &mut usize,
) -> u32
    ensures { WriteIs (sheet rows.now names.now) text.old result place.new text.new }
{
    told(xsd_write::call::write_back(rows, names, text), place)
}
