// Row 0 of a graph sheet.
ghost use Rattle.std.specs.Prelude.{◌≡◌, ◌≤◌};
ghost use Rattle.ir_append.specs.Row0.{counted_row0};

use rows::numbers::Used;

// "Row 0: 0, rows used, names used, root elements, types, then zeros.": that of a graph of so many root elements and types, from what is used of its sheet.
pub fn counted_row0(used: Used, roots: usize, types: usize) -> [u32; 10]
    requires { (used.rows ≤ 65536) × (used.names ≤ 65536) × (roots ≤ 65536) × (types ≤ 65536) }
    ensures { result ≡ counted_row0 used roots types }
{
    [
        0,
        used.rows as u32,
        used.names as u32,
        roots as u32,
        types as u32,
        0,
        0,
        0,
        0,
        0,
    ]
}
