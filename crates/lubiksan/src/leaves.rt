// The text leaves exported.
ghost use Rattle.std.specs.Prelude.{◌≡◌, ◌-◌, length, MatchOption};
ghost use Rattle.text.specs.Text.{same, local_name};
ghost use Rattle.sheet.specs.Rows.{bit};
ghost use Rattle.number.specs.Number.{number};
ghost use Rattle.builtin.specs.Builtin.{map_builtin, reference};
ghost use Rattle.names.specs.Names.{normalize_type_name, xml_to_snake_case, code_to_pascal_case};
ghost use Rattle.names.specs.Answers.{written, placed};
ghost use Rattle.lubiksan.specs.Exported.{Exported, stored_count};

use names::{same, snake};
use sheet::refusal::{ACCEPTED, Refusal};

// The bytes written, or the largest number where the part is shorter than the conversion.
fn count_of(written: Option<usize>) -> usize
    ensures { result ≡ stored_count written }
{
    written.unwrap_or(usize::MAX)
}

// Where the local name begins in the name.
#[unsafe(no_mangle)]
pub extern "C" fn lubiksan_local_name(name: &[u8]) -> usize
    ensures { result ≡ length name.now - length (local_name name.now) }
{
    let local = text::local_name(name);
    name.len() - local.len()
}

// 0 with the answer stored, or 10 with the value as it was.
fn stored<T: Copy>(answer: Option<T>, value: &mut T) -> u32
    ensures { MatchOption answer ((result ≡ 10) × (value.new ≡ value.old)) (λ v. (result ≡ 0) × (value.new ≡ v)) }
{
    let Some(v) = answer else {
        return u32::from(Refusal::InvalidAttributeValue);
    };
    *value = v;
    ACCEPTED
}

// 0 with the value stored, or 10 with the value as it was.
#[unsafe(no_mangle)]
pub extern "C" fn lubiksan_parse_u32(s: &[u8], value: &mut u32) -> u32
    ensures { Exported (number 32 s.now) value.old result value.new }
{
    stored(number::parse_u32(s), value)
}

#[unsafe(no_mangle)]
pub extern "C" fn lubiksan_parse_u64(s: &[u8], value: &mut u64) -> u32
    ensures { Exported (number 64 s.now) value.old result value.new }
{
    stored(number::parse_u64(s), value)
}

// 0 for a name that is not built in, 1 String, 2 Bool, 3 Decimal, 4 Date, 5 DateTime.
#[unsafe(no_mangle)]
pub extern "C" fn lubiksan_map_builtin(name: &[u8]) -> u32
    ensures { result ≡ reference (map_builtin name.now) }
{
    builtin::reference_number(builtin::map_builtin(name))
}

// The writers return how many bytes the conversion has, or the largest number where out is shorter;
// out holds the first bytes of the conversion, as far as it reaches, and behind them what it held.
#[unsafe(no_mangle)]
pub extern "C" fn lubiksan_normalize_type_name(name: &[u8], out: &mut [u8]) -> usize
    ensures { (result ≡ stored_count (written (normalize_type_name name.now) (length out.old))) × (out.new ≡ placed (normalize_type_name name.now) out.old) }
{
    count_of(names::normalize_type_name(name, out))
}

#[unsafe(no_mangle)]
pub extern "C" fn lubiksan_xml_to_snake_case(name: &[u8], out: &mut [u8]) -> usize
    ensures { (result ≡ stored_count (written (xml_to_snake_case name.now) (length out.old))) × (out.new ≡ placed (xml_to_snake_case name.now) out.old) }
{
    count_of(snake::xml_to_snake_case(name, out))
}

#[unsafe(no_mangle)]
pub extern "C" fn lubiksan_code_to_pascal_case(value: &[u8], out: &mut [u8]) -> usize
    ensures { (result ≡ stored_count (written (code_to_pascal_case value.now) (length out.old))) × (out.new ≡ placed (code_to_pascal_case value.now) out.old) }
{
    count_of(names::code_to_pascal_case(value, out))
}

// 1 where the two names normalise to the same text, else 0.
#[unsafe(no_mangle)]
pub extern "C" fn lubiksan_same_normalized(a: &[u8], b: &[u8]) -> u32
    ensures { result ≡ bit (same (normalize_type_name a.now) (normalize_type_name b.now)) }
{
    u32::from(same::same_normalized(a, b))
}
