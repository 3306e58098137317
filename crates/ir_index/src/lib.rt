// The first head of a finished type, in lowering's order, whose name came before (order 4: "Lowering refuses when two finished types normalise to the same
// name"), by a table of any length: a block of heads is entered, those behind it are asked against it, and then comes the next block. Behind the first head that
// came with a block nothing need be looked at again. That the rows are within the limit is a clause: a part is of rows of any length.
// So are that a turn and a search are of the part (`turn < 2 * (end - 2)`, `Within`), and that the table holds heads of the part (`HeadsIn`, `HeadsOf`): the table is changed by
// some steps and read by others, so a struct of part, search and table would be made anew between them. The lent numbers are of any length, and two bounds say which serve.
#![tactic(auto)]

ghost use Rattle.std.specs.Prelude.{◌≡◌, ◌-◌, ◌+◌, ◌*◌, ◌≤◌, ◌<◌, [], length};
ghost use Rattle.sheet.specs.Limits.{rows_limit};
ghost use Rattle.ir_lower.specs.Repeated.{first_repeated};
ghost use Rattle.ir_rows.specs.Parts.{part_heads};
ghost use Rattle.name_index.specs.Index.{Starts};
ghost use Rattle.ir_index.specs.Heads.{kind_place, head_place};
ghost use Rattle.ir_index.specs.Blocks.{Within, found_row, HeadsIn, HeadsOf, names_in, EntersTurn, BlockIs, AskedIs, FirstIs, SearchedBehind, SearchedOn};

use ir_checks::{TypeKind, is_kind};
use name_index::{Heads, Table, TableWriter, find};
use rows::part::SheetPart;

// The row of a head whose name came before in its block.
#[derive(Clone, Copy)]
struct Repeated {
    place: usize,
}

// A block that is entered: the turn behind it, how many entries it has, and whether they stand in order.
#[derive(Clone, Copy)]
struct Block {
    next: usize,
    entries: usize,
    sorted: bool,
}

// A head whose name came with a block: its turn and its row.
#[derive(Clone, Copy)]
struct Came {
    turn: usize,
    place: usize,
}

// How far the search is: the turns that are left, from one up to a limit, and the row that was found at the limit.
#[derive(Clone, Copy)]
struct Search {
    from: usize,
    limit: usize,
    found: Option<usize>,
}

fn kind_at(part: &SheetPart<'_>, kind: TypeKind, place: usize) -> Option<usize>
    requires { place < part.now.end }
    ensures { result ≡ kind_place part.now kind place }
{
    if is_kind(kind, part.tag(place)) {
        Some(place)
    } else {
        None
    }
}

// The place of the head at a turn, if there is one. "Only finished types are lowered, simple ones before complex.": the first half of the turns is for the simple ones.
fn head_at(part: &SheetPart<'_>, turn: usize) -> Option<usize>
    requires { turn < 2 * (part.now.end - 2) }
    ensures { result ≡ head_place part.now turn }
{
    let half = part.end - 2;
    if turn < half {
        return kind_at(part, TypeKind::Simple, turn + 2);
    }
    kind_at(part, TypeKind::Complex, turn - half + 2)
}

// Enters the head of a turn, if there is one, or answers its row where its name came before.
fn enter_turn(
    part: &SheetPart<'_>,
    table: &mut TableWriter<'_>,
    turn: usize,
) -> Result<(), Repeated>
    requires index { HeadsIn part.now table.old }
    requires turn_inside { (turn < 2 * (part.now.end - 2)) × (length part.now.rows.now ≤ rows_limit) }
    requires room { table.old.buckets + table.old.entries < length table.old.numbers.now }
    ensures { EntersTurn part.now table.old turn table.new result }
{
    let Some(place) = head_at(part, turn) else {
        return Ok(());
    };
    let heads = Heads {
        rows: part.rows,
        names: part.names,
        normalised: true,
    };
    if table.enter(heads, place).is_some() {
        return Err(Repeated { place });
    }
    Ok(())
}

// Enters the heads of the turns that are left, as many as the table takes. A `while`: a `for` would make the block in two places, where the table is full and where the turns end.
fn enter_block(
    part: &SheetPart<'_>,
    numbers: &mut [u32],
    buckets: usize,
    search: Search,
) -> Result<Block, Repeated>
    requires within { Within part.now search × (search.from < search.limit) }
    requires starts { Starts numbers.old buckets × (buckets < length numbers.old) }
    ensures { BlockIs part.now numbers.new buckets search result }
{
    let mut table = TableWriter::start(numbers, buckets);
    let mut next = search.from;
    while next < search.limit && table.buckets + table.entries < table.numbers.len() {
        enter_turn(part, &mut table, next)?;
        next += 1;
    }
    Ok(Block {
        next,
        entries: table.entries,
        sorted: table.sorted,
    })
}

// The row of the head of a turn, if its name is among those of a block.
fn came_at(part: &SheetPart<'_>, table: &Table<'_>, turn: usize) -> Option<usize>
    requires index { HeadsOf part.now table.now }
    requires turn_inside { turn < 2 * (part.now.end - 2) }
    ensures { AskedIs part.now (names_in part.now table.now) turn result }
{
    let place = head_at(part, turn)?;
    let heads = Heads {
        rows: part.rows,
        names: part.names,
        normalised: true,
    };
    find(heads, *table, heads.spelled_at(place))?;
    Some(place)
}

// The first turn whose head came with a block. A loop: with `find_map`, which was tried, what the call asks is found, and its answer (`returns`) stays open. The library has
// laws of `find` and `position` over a range and none of `find_map`, so one would be proved here beside the induction over the turns.
fn first_came(part: &SheetPart<'_>, table: &Table<'_>, search: Search) -> Option<Came>
    requires index { HeadsOf part.now table.now }
    requires within { Within part.now search × (search.from ≤ search.limit) }
    ensures { FirstIs part.now (names_in part.now table.now) search result }
{
    for turn in search.from..search.limit {
        if let Some(place) = came_at(part, table, turn) {
            return Some(Came { turn, place });
        }
    }
    None
}

// Behind a block: a head that came with it is what is found, unless one before it came with another block, so that it is the limit of what is left.
fn search_behind(part: &SheetPart<'_>, table: &Table<'_>, search: Search) -> Search
    requires index { HeadsOf part.now table.now }
    requires within { Within part.now search × (search.from ≤ search.limit) }
    ensures { SearchedBehind part.now (names_in part.now table.now) search result }
{
    let Some(came) = first_came(part, table, search) else {
        return search;
    };
    Search {
        from: search.from,
        limit: came.turn,
        found: Some(came.place),
    }
}

// A block, and what is behind it. Half of the numbers are buckets.
fn search_block(part: &SheetPart<'_>, numbers: &mut [u32], search: Search) -> Search
    requires within { Within part.now search × (search.from < search.limit) }
    requires numbers_long { (2 ≤ length numbers.old) × (length numbers.old ≤ rows_limit) }
    ensures { SearchedOn part.now search result }
{
    let buckets = numbers.len() / 2;
    match enter_block(part, numbers, buckets, search) {
        Ok(block) => {
            let table = Table {
                numbers,
                buckets,
                entries: block.entries,
                sorted: block.sorted,
            };
            let behind = Search {
                from: block.next,
                limit: search.limit,
                found: search.found,
            };
            search_behind(part, &table, behind)
        }
        Err(first) => Search {
            from: search.limit,
            limit: search.limit,
            found: Some(first.place),
        },
    }
}

// The row of the first head whose name came before. A table of four numbers for each row takes all heads in one block.
pub fn first_repeated(part: &SheetPart<'_>, numbers: &mut [u32]) -> Option<usize>
    requires part_rows { (2 ≤ part.now.end) × (length part.now.rows.now ≤ rows_limit) }
    requires numbers_long { (2 ≤ length numbers.old) × (length numbers.old ≤ rows_limit) }
    ensures { first_repeated [] (part_heads part.now) ≡ found_row result }
{
    let mut search = Search {
        from: 0,
        limit: 2 * (part.end - 2),
        found: None,
    };
    // A `while`: its steps are blocks of any length.
    while search.from < search.limit {
        search = search_block(part, numbers, search);
    }
    search.found
}
