// What stands behind the used parts of a sheet's two buffers.
ghost use Rattle.std.specs.Prelude.{◌≡◌, ◌&&◌, ◌*◌, ◌≤◌, length, drop};
ghost use Rattle.sheet.specs.Rows.{all_zero};

use sheet::limits;

// Whether all behind the used parts is zero: the bits of all numbers together are none. A fold looks at every number, and so at many at a time; by bits it takes 7
// instructions for 32 bytes, by a test of each number 10.
pub fn zeros_behind(rows: &[u32], names: &[u8], rows_used: usize, names_used: usize) -> bool
    requires { (10 * rows_used ≤ length rows.now) × (names_used ≤ length names.now) }
    ensures { result ≡ (all_zero (drop (10 * rows_used) rows.now) && all_zero (drop names_used names.now)) }
{
    let rows_end = limits::ROW * rows_used;
    let rows_bits = rows[rows_end..].iter().fold(0, |bits, x| bits | *x);
    let names_bits = names[names_used..].iter().fold(0, |bits, x| bits | *x);
    (rows_bits == 0) & (names_bits == 0)
}
