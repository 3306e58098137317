// The name conversions of 001 (lower.rs), each written into a lent part: two here, `xml_to_snake_case` in `snake`. `same`: two names
// compared as they normalise. Each answers how many bytes it wrote, or `None` where the part is shorter than the conversion.
#![tactic(auto)]

mod bytes;
pub mod cases;
pub mod characters;
pub mod reading;
pub mod same;
pub mod segments;
pub mod snake;

ghost use Rattle.std.specs.Prelude.{◌≡◌, ◌<◌, true};
ghost use Rattle.text.specs.Characters.{characters};
ghost use Rattle.names.specs.Names.{normalize_type_name, code_to_pascal_case};
ghost use Rattle.names.specs.Answers.{Put};
ghost use Rattle.names.specs.Scans.{segments};

use bytes::{put_byte, put_bytes};
use plain_bytes::copy_bytes;
use reading::Reading;
use segments::{SegmentBytes, cased_byte};
use text::has_byte;

// Character by character. Never inlined: only a name with a byte from 128 on asks for it.
#[inline(never)]
fn put_characters(s: &[u8], separator: u8, lowers: bool, out: &mut [u8]) -> Option<usize>
    requires { separator < 128 }
    ensures { Put (segments separator lowers true (characters s.now)) out.old result out.new }
{
    let bytes = SegmentBytes {
        reading: Reading::Segments,
        rest: s,
        separator,
        lowers,
        up: true,
    };
    put_bytes(bytes, out)
}

// The segments of s between separators, put together, each with its first character in the upper form: byte by byte, or from the start again where a byte is not
// below 128. Inlined, so that each of the two conversions has a loop of its own.
#[inline(always)]
fn put_segments(s: &[u8], separator: u8, lowers: bool, out: &mut [u8]) -> Option<usize>
    requires { separator < 128 }
    ensures { Put (segments separator lowers true (characters s.now)) out.old result out.new }
{
    let mut up = true;
    let mut end = 0;
    for b in s {
        if *b >= 128 {
            return put_characters(s, separator, lowers, out);
        }
        if *b == separator {
            up = true;
        } else {
            end = put_byte(out, end, cased_byte(*b, up, lowers))?;
            up = false;
        }
    }
    Some(end)
}

// The text as it stands.
pub fn put_same(s: &[u8], out: &mut [u8]) -> Option<usize>
    ensures { Put s.now out.old result out.new }
{
    if out.len() < s.len() {
        copy_bytes(out, &s[..out.len()]);
        return None;
    }
    copy_bytes(&mut out[..s.len()], s);
    Some(s.len())
}

// A type name as a Rust name: without underscores, each segment's first character in the upper form.
pub fn normalize_type_name(name: &[u8], out: &mut [u8]) -> Option<usize>
    ensures { Put (normalize_type_name name.now) out.old result out.new }
{
    if has_byte(name, b'_') {
        put_segments(name, b'_', false, out)
    } else {
        put_same(name, out)
    }
}

// An enumeration's value as a variant's name.
pub fn code_to_pascal_case(value: &[u8], out: &mut [u8]) -> Option<usize>
    ensures { Put (code_to_pascal_case value.now) out.old result out.new }
{
    put_segments(value, b'-', true, out)
}
