// What is read of a sheet by numbers alone: a row's tag, its pairs, its other numbers, and whether what is used has room.
// That a row is there is a clause: it is asked of all rows of a sheet for one look, and a struct made for that look would be taken apart at once.
ghost use Rattle.std.specs.Prelude.{◌≡◌, ◌+◌, ◌*◌, ◌/◌, ◌%◌, ◌^◌, ◌≤◌, ◌<◌, length, get_or};
ghost use Rattle.sheet.specs.Lengths.{fits};
ghost use Rattle.rows.specs.Numbers.{numbers_at};

use sheet::limits;

// How many rows, row 0 among them, and how many bytes of names are used.
#[derive(Clone, Copy)]
pub struct Used {
    pub rows: usize,
    pub names: usize,
}

// A row's numbers that are not of its pairs.
#[derive(Clone, Copy)]
pub struct RowNumbers {
    pub tag: u32,
    pub a: u32,
    pub b: u32,
    pub c: u32,
}

// A pair of a row: where its text starts in the names, and how long it is.
#[derive(Clone, Copy)]
pub struct Pair {
    pub at: usize,
    pub len: usize,
}

// A number of a row, or of the marks of a tape, as a place or a count. By name, since std has no `From<u32>` for usize.
pub fn wide(x: u32) -> usize
    ensures { result ≡ x }
{
    x as usize
}

// "a low, b high 32 bits": the count that two numbers of a row hold.
pub fn joined(low: u32, high: u32) -> u64
    ensures { result ≡ low + high * 2 ^ 32 }
{
    low as u64 + high as u64 * 4294967296
}

// The low and the high 32 bits of a count.
pub fn halves(count: u64) -> (u32, u32)
    ensures { (result.0 ≡ count % 2 ^ 32) × (result.1 ≡ count / 2 ^ 32) }
{
    ((count % 4294967296) as u32, (count / 4294967296) as u32)
}

// The tag of the row at a place. That the row is there is a clause, here and where `10 ≤ length` is: a type that says it of the rows would ask more of callers, who have a slice.
pub fn row_tag(rows: &[u32], place: usize) -> u32
    requires { 10 * place + 10 ≤ length rows.now }
    ensures { result ≡ get_or rows.now (10 * place) 0 }
{
    rows[limits::ROW * place]
}

// The pair whose two numbers stand from `i`.
pub fn pair_at(rows: &[u32], i: usize) -> Pair
    requires { i + 1 < length rows.now }
    ensures { (result.at ≡ get_or rows.now i 0) × (result.len ≡ get_or rows.now (i + 1) 0) }
{
    let at = rows[i];
    let len = rows[i + 1];
    Pair {
        at: at as usize,
        len: len as usize,
    }
}

// A row's numbers that are not of its pairs.
pub fn numbers_at(rows: &[u32], place: usize) -> RowNumbers
    requires { 10 * place + 10 ≤ length rows.now }
    ensures { result ≡ numbers_at rows.now place }
{
    let i = 10 * place;
    RowNumbers {
        tag: rows[i],
        a: rows[i + 7],
        b: rows[i + 8],
        c: rows[i + 9],
    }
}

// No bound on what is used in the type: what `needed` of xsd_act counts may be more than a sheet has.
pub fn has_room(used: Used, rows: usize, names: usize) -> bool
    requires { used.rows ≤ 65536 }
    ensures { result ≡ fits used.rows used.names rows names }
{
    (10 * used.rows <= rows) & (used.names <= names)
}
