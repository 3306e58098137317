// An index of names over the places of heads: is there a head of this name, and where. A table of `buckets` numbers and then one number for each head
// so far. A name is looked for in its bucket alone, and compared byte by byte, as long as no bucket has more than `CHAIN` entries. With so many buckets as entries a name comes to a longer
// one only where names are chosen to collide. Then the entries are put in order of their names, and a name is looked for by halves, in as many steps as the number of entries has bits. What is
// left of the square for such names is that an entry moves those behind it, 4,094 numbers at most, by one `copy_within`.
#![tactic(auto)]

ghost use Rattle.std.specs.Prelude.{◌≡◌, true, false, ◌+◌, ◌*◌, ◌/◌, ◌%◌, ◌≤◌, ◌<◌, length, get_or, None};
ghost use Rattle.text.specs.Text.{same};
ghost use Rattle.names.specs.Same.{spelled_text};
ghost use Rattle.sheet.specs.Limits.{rows_limit};
ghost use Rattle.name_index.specs.Hash.{mixed, hash_from, hash, bucket_of};
ghost use Rattle.name_index.specs.Index.{head_name, spelled_name_at, place_of, places_in, in_bucket, order, name_in, name_asked, place_asked};
ghost use Rattle.name_index.specs.Index.{Index, IndexOf, Starts, Started, IndexIn, Entering, Entered, Enters, Passed, SearchIs, Inserted, PutInOrder};

use names::same::Spelled;
use rows::numbers::wide;
use rows::parts::pair_text;
use sheet::limits;
use std::cmp::Ordering;
use text::{has_byte, same_text};

// Heads: their rows, the bytes of their names, and whether their names are taken as they normalise, or as they stand.
// Not a `SheetPart`: an index holds places among all rows lent, and its definition has no end that a part would set.
#[derive(Clone, Copy)]
pub struct Heads<'a> {
    pub rows: &'a [u32],
    pub names: &'a [u8],
    pub normalised: bool,
}

// The most entries of a bucket.
const CHAIN: usize = 16;

// A table with so many entries behind its buckets, in order of their names where it is sorted.
#[derive(Clone, Copy)]
pub struct Table<'a> {
    pub numbers: &'a [u32],
    pub buckets: usize,
    pub entries: usize,
    pub sorted: bool,
}

// A table that heads are entered into. Beside `Table`, which is copied and lent to every search: this one is lent by `&mut` and has an end.
#[derive(Drop)]
pub struct TableWriter<'a> {
    pub numbers: &'a mut [u32],
    pub buckets: usize,
    pub entries: usize,
    pub sorted: bool,
}

// What a walk along a bucket found, and how many entries of other names it passed.
#[derive(Clone, Copy)]
struct Walk {
    found: Option<usize>,
    passed: usize,
}

fn mix(h: u64, b: u8) -> u64
    requires { h < 4294967296 }
    ensures { result ≡ mixed h b }
{
    ((h + b as u64) * 2654435761) % 4294967296
}

// Four bytes at once: no product is made of another. The factors are the powers of that of `mix`, modulo 4294967296.
fn mix_four(h: u64, a: u8, b: u8, c: u8, d: u8) -> u64
    requires { h < 4294967296 }
    ensures { result ≡ mixed (mixed (mixed (mixed h a) b) c) d }
{
    ((h + a as u64) * 527875265
        + b as u64 * 3422824465
        + c as u64 * 4293315681
        + d as u64 * 2654435761)
        % 4294967296
}

// Never inlined: only a name with an underscore that is normalised asks for it.
#[inline(never)]
fn hash_spelled(name: Spelled) -> u64
    ensures { result ≡ hash (spelled_text name.entry) }
{
    let mut h = 0;
    for b in name.bytes() {
        h = mix(h, b);
    }
    h
}

// The hash of the first bytes of a text, and the bytes that are left.
#[derive(Clone, Copy)]
struct Hashed<'a> {
    hash: u64,
    rest: &'a [u8],
}

// By four bytes as long as there are four.
#[inline(always)]
fn hash_fours(text: &[u8]) -> Hashed<'_>
    ensures { (result.hash < 4294967296) × (hash_from result.hash result.rest.now ≡ hash text.now) }
{
    let (fours, rest) = text.as_chunks::<4>();
    let mut h = 0;
    for &[a, b, c, d] in fours {
        h = mix_four(h, a, b, c, d);
    }
    Hashed { hash: h, rest }
}

#[inline(always)]
fn hash_text(text: &[u8]) -> u64
    ensures { result ≡ hash text.now }
{
    let hashed = hash_fours(text);
    let mut h = hashed.hash;
    for &b in hashed.rest {
        h = mix(h, b);
    }
    h
}

// Inlined, as all that a search does for each name is: in a call of its own what is asked and the heads would be stored and read again.
#[inline(always)]
fn hash_of(name: Spelled) -> u64
    ensures { result ≡ hash (spelled_text name.entry) }
{
    if stands_as_is(name) {
        hash_text(name.name)
    } else {
        hash_spelled(name)
    }
}

// No table: one that is read and one that is written both ask, and the number of buckets is all that is needed.
#[inline(always)]
fn bucket_of(asked: Spelled, buckets: usize) -> usize
    requires { buckets ≤ rows_limit }
    ensures { result ≡ bucket_of buckets (spelled_text asked.entry) }
{
    (hash_of(asked) * buckets as u64 / 4294967296) as usize
}

// The name in the first pair of the row at a place.
pub fn name_at<'a>(rows: &[u32], names: &'a [u8], place: usize) -> &'a [u8]
    requires { 10 * place + 10 ≤ length rows.now }
    ensures { result.now ≡ head_name rows.now names.now place }
{
    pair_text(rows, names, limits::ROW * place + 1)
}

impl<'a> Heads<'a> {
    // The name of the head at a place, spelled as the heads are.
    pub fn spelled_at(self, place: usize) -> Spelled<'a>
        requires { 10 * place + 10 ≤ length self.rows.now }
        ensures { spelled_text result ≡ spelled_name_at self.entry.rows.now self.entry.names.now self.entry.normalised place }
    {
        Spelled {
            name: name_at(self.rows, self.names, place),
            normalised: self.normalised,
        }
    }
}

// Whether a name is spelled as it stands. Only `true` tells something: of a name with an underscore nothing is asked.
#[inline(always)]
fn stands_as_is(name: Spelled) -> bool
    ensures { result ≡ true → spelled_text name.entry ≡ name.entry.name.now }
{
    !name.normalised || !has_byte(name.name, b'_')
}

// Byte by byte, by what is left of each name. Never inlined: only names with an underscore are asked for so.
#[inline(never)]
fn same_bytes(a: Spelled, b: Spelled) -> bool
    ensures { result ≡ same (spelled_text a.entry) (spelled_text b.entry) }
{
    a.is_same(b)
}

// Whether two names are the same as they are spelled. Where both are spelled as they stand they are compared at once: byte by byte takes several times as long.
#[inline(always)]
fn same_spelled(a: Spelled, b: Spelled) -> bool
    ensures { result ≡ same (spelled_text a.entry) (spelled_text b.entry) }
{
    if stands_as_is(a) && stands_as_is(b) {
        return same_text(a.name, b.name);
    }
    same_bytes(a, b)
}

// How two names stand in order as they are spelled, by what is left of each. Never inlined: only names with an underscore are asked for so.
#[inline(never)]
fn compare_bytes(a: Spelled, b: Spelled) -> Ordering
    ensures { result ≡ order (spelled_text a.entry) (spelled_text b.entry) }
{
    a.compare(b)
}

// How two names stand in order as they are spelled: at once where both are spelled as they stand, as `same_spelled` tells whether they are the same.
fn compare_spelled(a: Spelled, b: Spelled) -> Ordering
    ensures { result ≡ order (spelled_text a.entry) (spelled_text b.entry) }
{
    if stands_as_is(a) && stands_as_is(b) {
        return a.name.cmp(b.name);
    }
    compare_bytes(a, b)
}

// The place in an entry.
#[inline(always)]
fn place_in(entry: u32) -> usize
    ensures { result ≡ entry % 65536 }
{
    wide(entry % 65536)
}

// Where a name stands among sorted entries, or where it would. No `binary_search_by`: its closure must be callable at any entry, and a name is read only where the index says that a row is.
fn search_sorted(heads: Heads, table: Table, asked: Spelled) -> Result<usize, usize>
    requires index { IndexOf heads table }
    requires sorted { table.sorted ≡ true }
    ensures { SearchIs (name_asked heads.entry table.entry) (spelled_text asked.entry) table.entry.entries result }
{
    let mut low = 0;
    let mut high = table.entries;
    // A `while`: each step leaves half of the entries.
    while low < high {
        let middle = (low + high) / 2;
        let place = place_in(table.numbers[table.buckets + middle]);
        match compare_spelled(heads.spelled_at(place), asked) {
            Ordering::Less => low = middle + 1,
            Ordering::Equal => return Ok(middle),
            Ordering::Greater => high = middle,
        }
    }
    Err(low)
}

// Cold and never inlined, as all that is done for a sorted table: only names that were chosen to collide ask for it.
#[cold]
#[inline(never)]
fn find_sorted(heads: Heads, table: Table, asked: Spelled) -> Option<usize>
    requires index { IndexOf heads table }
    requires sorted { table.sorted ≡ true }
    ensures { result ≡ place_asked heads.entry table.entry asked.entry }
{
    let Ok(at) = search_sorted(heads, table, asked) else {
        return None;
    };
    Some(place_in(table.numbers[table.buckets + at]))
}

// Puts a place among numbers: those from there up to an end stand one further, the last of them in the place of the number behind.
fn put_between(numbers: &mut [u32], from: usize, end: usize, place: usize)
    requires inside { (from ≤ end) × (end < length numbers.old) × (place < 65536) }
    requires few { length numbers.old ≤ rows_limit }
    ensures { Inserted numbers.old from end place numbers.new }
{
    numbers.copy_within(from..end, from + 1);
    numbers[from] = place as u32;
}

// Puts the entries in order of their names, one by one among those before it: entry e is read before it is written over.
#[cold]
#[inline(never)]
fn sort(numbers: &mut [u32], buckets: usize, entries: usize, heads: Heads)
    requires index { Index heads.rows.now heads.names.now heads.normalised numbers.old buckets entries false }
    requires few { length heads.rows.now ≤ rows_limit }
    ensures { PutInOrder heads.entry.rows.now heads.entry.names.now heads.entry.normalised numbers.old buckets entries numbers.new }
{
    for e in 0..entries {
        let place = place_in(numbers[buckets + e]);
        let table = Table {
            numbers,
            buckets,
            entries: e,
            sorted: true,
        };
        if let Err(at) = search_sorted(heads, table, heads.spelled_at(place)) {
            put_between(numbers, buckets + at, buckets + e, place);
        }
    }
}

// Enters a head among sorted entries, or answers the place of the one that has its name.
#[cold]
#[inline(never)]
fn enter_sorted(
    numbers: &mut [u32],
    buckets: usize,
    entries: usize,
    heads: Heads,
    place: usize,
) -> Option<usize>
    requires index { Index heads.rows.now heads.names.now heads.normalised numbers.old buckets entries true }
    requires entering { Entering heads.rows.now numbers.old buckets entries place }
    ensures same_length { length numbers.new ≡ length numbers.old }
    ensures entered { Entered heads.entry.rows.now heads.entry.names.now heads.entry.normalised numbers.old buckets entries place numbers.new true result }
{
    let table = Table {
        numbers,
        buckets,
        entries,
        sorted: true,
    };
    match search_sorted(heads, table, heads.spelled_at(place)) {
        Ok(at) => Some(place_in(numbers[buckets + at])),
        Err(at) => {
            put_between(numbers, buckets + at, buckets + entries, place);
            None
        }
    }
}

// Along the entries of a bucket, the last one first. An entry is one number, a place and 65536 times the entry before it: there is no heap, and a table that
// the caller lends has one number for each head. No `for`: an entry says which one comes next, and only the index says that there is an end.
#[inline(always)]
fn find_in(heads: Heads, table: Table, bucket: usize, asked: Spelled) -> Walk
    requires index { IndexOf heads table }
    requires hashed { table.sorted ≡ false }
    requires bucket_value { bucket ≡ bucket_of table.buckets (spelled_text asked) }
    ensures found { result.found ≡ place_asked heads.entry table.entry asked.entry }
    ensures passed { Passed heads.entry table.entry bucket result.found result.passed }
{
    let mut e = wide(table.numbers[bucket]);
    let mut passed = 0;
    while e != 0 {
        let entry = table.numbers[table.buckets + (e - 1)];
        let place = place_in(entry);
        if same_spelled(heads.spelled_at(place), asked) {
            return Walk {
                found: Some(place),
                passed,
            };
        }
        e = wide(entry / 65536);
        passed += 1;
    }
    Walk {
        found: None,
        passed,
    }
}

// The place of the last head entered whose name is the one asked for. Inlined too, and so is `enter`: both indexes of names search once for each row.
#[inline(always)]
pub fn find(heads: Heads, table: Table, asked: Spelled) -> Option<usize>
    requires { IndexOf heads table }
    ensures { result ≡ place_asked heads.entry table.entry asked.entry }
{
    if table.sorted {
        return find_sorted(heads, table, asked);
    }
    find_in(heads, table, bucket_of(asked, table.buckets), asked).found
}

impl<'a> TableWriter<'a> {
    // An index of no heads. The caller says how many buckets there are, since the table holds entries behind them.
    pub fn start(numbers: &'a mut [u32], buckets: usize) -> TableWriter<'a>
        requires { Starts numbers.old buckets }
        ensures same_numbers { result.numbers.ghost_name ≡ numbers.entry.ghost_name }
        ensures started { Started numbers.old buckets result }
    {
        numbers[..buckets].fill(0);
        TableWriter {
            numbers,
            buckets,
            entries: 0,
            sorted: false,
        }
    }

    // The walk along a bucket to the last entry that has the name asked for.
    #[inline(always)]
    fn held(&self, heads: Heads, bucket: usize, asked: Spelled) -> Walk
        requires index { IndexIn heads.rows.now heads.names.now heads.normalised self.now }
        requires hashed { self.now.sorted ≡ false }
        requires bucket_value { bucket ≡ bucket_of self.now.buckets (spelled_text asked) }
        ensures found { result.found ≡ place_of (spelled_name_at heads.entry.rows.now heads.entry.names.now heads.entry.normalised)
            (spelled_text asked.entry) (places_in self.now.buckets self.now.entries self.now.numbers.now) }
        ensures passed { result.found ≡ None → result.passed ≡ in_bucket self.now.buckets bucket
            (name_in heads.entry.rows.now heads.entry.names.now heads.entry.normalised self.now.numbers.now self.now.buckets) self.now.entries }
    {
        let table = Table {
            numbers: self.numbers,
            buckets: self.buckets,
            entries: self.entries,
            sorted: false,
        };
        find_in(heads, table, bucket, asked)
    }

    // `enter` where the entries are sorted. The numbers are lent to a function that is not inlined, and not the writer, which then stays in registers.
    #[inline(always)]
    fn enter_in_order(&mut self, heads: Heads, place: usize) -> Option<usize>
        requires index { IndexIn heads.rows.now heads.names.now heads.normalised self.old }
        requires sorted { self.old.sorted ≡ true }
        requires entering { Entering heads.rows.now self.old.numbers.now self.old.buckets self.old.entries place }
        ensures { Enters heads.entry self.old place self.new result }
    {
        let entries = self.entries;
        if let Some(held) = enter_sorted(self.numbers, self.buckets, entries, heads, place) {
            return Some(held);
        }
        self.entries = entries + 1;
        None
    }

    // The head at a place is one entry more and the answer None, if no entry has its name; else the answer is the place of the last that has it. Inlined: without the
    // attribute a reduction takes 41.8 ns for each row in the place of 39 (docs/DECISIONS.md, 222).
    #[inline(always)]
    pub fn enter(&mut self, heads: Heads, place: usize) -> Option<usize>
        requires index { IndexIn heads.rows.now heads.names.now heads.normalised self.old }
        requires entering { Entering heads.rows.now self.old.numbers.now self.old.buckets self.old.entries place }
        ensures { Enters heads.entry self.old place self.new result }
    {
        if self.sorted {
            return self.enter_in_order(heads, place);
        }
        let asked = heads.spelled_at(place);
        let bucket = bucket_of(asked, self.buckets);
        let walk = self.held(heads, bucket, asked);
        if let Some(held) = walk.found {
            return Some(held);
        }
        if walk.passed >= CHAIN {
            sort(self.numbers, self.buckets, self.entries, heads);
            self.sorted = true;
            return self.enter_in_order(heads, place);
        }
        self.numbers[self.buckets + self.entries] = place as u32 + 65536 * self.numbers[bucket];
        self.numbers[bucket] = self.entries as u32 + 1;
        self.entries += 1;
        None
    }
}
