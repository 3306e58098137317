// Clearing, reading and the conversion of order 7 exported.
ghost use Rattle.sheet.specs.Calls.{sheet, answered};
ghost use Rattle.xsd_types.specs.Clear.{ClearIs};
ghost use Rattle.xsd_types.specs.Convert.{ConvertIs};
ghost use Rattle.xsd_parser.specs.Read.{ReadIs};

use rows::answers::told;
use xsd_good::{clear, convert};

// Clears a sheet for a choice, 0 as before or 1 by the standard, and gives the number; the place is stored.
#[unsafe(no_mangle)]
pub extern "C" fn lubiksan_clear(
    rows: &mut [u32],
    names: &mut [u8],
    choice: u32,
    place: &mut usize,
) -> u32
    ensures { ClearIs choice (sheet rows.old names.old) (answered result place.new) (sheet rows.new names.new) }
{
    let cleared = clear::clear(rows, names, choice);
    told(cleared, place)
}

// Reads a piece of a tape into a sheet and gives the number; the place, the events read, is stored.
#[unsafe(no_mangle)]
pub extern "C" fn lubiksan_read(
    rows: &mut [u32],
    names: &mut [u8],
    text: &[u8],
    marks: &[u32],
    place: &mut usize,
) -> u32
    ensures { ReadIs (sheet rows.old names.old) text.now marks.now (answered result place.new) (sheet rows.new names.new) }
{
    let answer = xsd_read::read(rows, names, text, marks);
    told(answer, place)
}

// Fills in the count of a sheet stored before order 7 and gives the number; the place, 0, is stored.
#[unsafe(no_mangle)]
pub extern "C" fn lubiksan_convert(rows: &mut [u32], names: &[u8], place: &mut usize) -> u32
    ensures { ConvertIs (sheet rows.old names.now) (answered result place.new) (sheet rows.new names.now) }
{
    let converted = convert::convert(rows, names);
    told(converted, place)
}
