// The heads in an index of names, and what each row leads to by it. How far the part reaches and how long its rows are is said in clauses: `SheetPart` is of
// any end, and a type that says more would be made for these three functions alone.
ghost use Rattle.std.specs.Prelude.{◌≡◌, ◌+◌, ◌≤◌, ◌<◌, length};
ghost use Rattle.sheet.specs.Limits.{rows_limit};
ghost use Rattle.ir_reduce.specs.Index.{asked_pair};
ghost use Rattle.ir_reduce.specs.Parts.{HeadsEntered, EntersHead, HeadsIndexed, IsIndex, TargetsIn, part_target};

use graph_form::row::is_type;
use ir_types::tags;
use name_index::{Heads, Table, TableWriter, find};
use names::same::Spelled;
use rows::form::in_range;
use rows::part::SheetPart;
use rows::parts::pair_text;
use sheet::limits;

// A place for each row that a graph can have; in the table as many buckets, and behind them an entry for each place.
pub const PLACES: usize = 4096;

pub const BUCKETS: usize = PLACES;

pub const NUMBERS: usize = BUCKETS + PLACES;

// What is told of a table in which the heads are entered: how many entries it has, and whether they stand in order.
#[derive(Clone, Copy)]
pub struct Indexed {
    pub entries: usize,
    pub sorted: bool,
}

// Enters the row at a place, where it is a head, or answers None where its name came before.
fn enter_head(part: &SheetPart, table: &mut TableWriter, place: usize) -> Option<()>
    requires index { HeadsEntered part.now table.old }
    requires place_nonzero { (0 < place) × (place < part.now.end) × (length part.now.rows.now ≤ rows_limit) × (4096 + table.old.entries < length table.old.numbers.now) }
    ensures { EntersHead part.now table.old place table.new result }
{
    if !is_type(part.tag(place)) {
        return Some(());
    }
    let heads = Heads {
        rows: part.rows,
        names: part.names,
        normalised: false,
    };
    if table.enter(heads, place).is_some() {
        return None;
    }
    Some(())
}

// Enters every head, up to the first whose name came before. None where two have one name.
pub fn index_heads(part: &SheetPart, numbers: &mut [u32; NUMBERS]) -> Option<Indexed>
    requires { (length part.now.rows.now ≤ rows_limit) × (1 ≤ part.now.end) }
    ensures { HeadsIndexed part.now numbers.new result }
{
    let mut table = TableWriter::start(numbers, BUCKETS);
    for place in 1..part.end {
        enter_head(part, &mut table, place)?;
    }
    Some(Indexed {
        entries: table.entries,
        sorted: table.sorted,
    })
}

// Where in a row the pair of the name stands that it leads to; None where it leads nowhere.
fn asked_pair(tag: u32, a: u32) -> Option<usize>
    ensures { result ≡ asked_pair tag a }
{
    if tag == tags::ROOT {
        return Some(3);
    }
    if (tag == tags::VALUE_WITH_ATTRIBUTES) & (a == 0) {
        return Some(3);
    }
    if (in_range(tags::FIELD, tags::VARIANT, tag) | (tag == tags::ATTRIBUTE)) & (a == 0) {
        Some(5)
    } else {
        None
    }
}

// The place of the head that a row leads to: a root by its type's name, normalised, another row by its reference as it stands.
fn target_at(part: &SheetPart, table: &Table, place: usize) -> Option<usize>
    requires { IsIndex part.now table.now × (place < part.now.end) }
    ensures { result ≡ part_target part.now place }
{
    let i = limits::ROW * place;
    let tag = part.rows[i];
    let pair = asked_pair(tag, part.rows[i + 7])?;
    let heads = Heads {
        rows: part.rows,
        names: part.names,
        normalised: false,
    };
    let asked = Spelled {
        name: pair_text(part.rows, part.names, i + pair),
        normalised: tag == tags::ROOT,
    };
    find(heads, *table, asked)
}

// What each row behind row 0 leads to. The array keeps 0 for nowhere: an `Option<u32>` in each of its 4,096 places would take twice the bytes of stack.
// A slice, as the marks in `put_kept` and `count_kept`: it serves callers with fewer places, where the part has no more rows.
pub fn put_targets(part: &SheetPart, table: &Table, to: &mut [u32])
    requires { IsIndex part.now table.now × (length part.now.rows.now ≤ rows_limit) × (part.now.end ≤ length to.old) × (1 ≤ part.now.end) × TargetsIn part.now 1 to.old }
    ensures targets_put { TargetsIn part.now part.now.end to.new }
    ensures to_len_unchanged { length to.new ≡ length to.old }
{
    for place in 1..part.end {
        to[place] = target_at(part, table, place).unwrap_or(0) as u32;
    }
}
