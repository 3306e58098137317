// Row 0 of a schema sheet: its numbers by name, made from a sheet's rows and turned back here alone, and its tests (tests).
pub mod tests;

ghost use Rattle.std.specs.Prelude.{◌≡◌, [], ◌∷◌, ◌≤◌, length};
ghost use Rattle.sheet.specs.Rows.{ten, numbers};
ghost use Rattle.xsd_types.specs.Row0.{row0_from, row0_ten};
ghost use Rattle.xsd_good.specs.Row0.{as_row0};

use rows::ten::ten_of;

// "Row 0 instead: 0, rows used, names used, context .., nesting, root seen, events done, open tags, extension flag", and order 3's choice.
// Flags and the context stay numbers: they are read before the tests say that the sheet is good.
#[derive(Clone, Copy)]
pub struct Row0 {
    pub first: u32,
    pub rows_used: u32,
    pub names_used: u32,
    pub context: u32,
    pub nesting: u32,
    pub root_seen: u32,
    pub events: u32,
    pub open_tags: u32,
    pub extension: u32,
    pub choice: u32,
}

// Row 0 of a sheet's rows.
#[tactic(auto, unfolding(xsd_types::specs::Row0::row0_from, sheet::specs::Rows::ten))]
pub fn row0_at(rows: &[u32]) -> Row0
    requires { 10 ≤ length rows.now }
    ensures { as_row0 result ≡ row0_from (ten rows.now) }
{
    let t = ten_of(rows);
    Row0 {
        first: t.tag,
        rows_used: t.at0,
        names_used: t.len0,
        context: t.at1,
        nesting: t.len1,
        root_seen: t.at2,
        events: t.len2,
        open_tags: t.a,
        extension: t.b,
        choice: t.c,
    }
}

// Row 0 as the ten numbers that a sheet holds. A function of this name, which callers have, and no `From` beside it.
#[tactic(auto, unfolding(xsd_types::specs::Row0::row0_ten, sheet::specs::Rows::numbers))]
pub fn row0_numbers(z: Row0) -> [u32; 10]
    ensures { result ≡ numbers (row0_ten (as_row0 z) ∷ []) }
{
    [
        z.first,
        z.rows_used,
        z.names_used,
        z.context,
        z.nesting,
        z.root_seen,
        z.events,
        z.open_tags,
        z.extension,
        z.choice,
    ]
}
