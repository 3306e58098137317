// The reader's state as a reading carries it from event to event: by value, without its rows, which stand in the sheet. `mode`: context and
// nesting after an event; `open_tags`: the open-tag record; `head`: the open type's head.
// That the rows have a row 0, and that the rows which it counts are there, are clauses: the rows are only read here, and are written between one reading of row 0 and the next.
#![tactic(auto)]

pub mod head;
pub mod mode;
pub mod open_tags;

ghost use Rattle.std.specs.Prelude.{true, ◌≡◌, ◌*◌, ◌≤◌, length};
ghost use Rattle.sheet.specs.Rows.{ten};
ghost use Rattle.sheet.specs.Form.{rows_used_in, words};
ghost use Rattle.xsd_good.specs.End.{HeadIs};
ghost use Rattle.xsd_good.specs.Row0.{as_row0};
ghost use Rattle.xsd_progress.specs.Progress.{progress_of, progress_in, used_in, row0_numbers};

use rows::numbers::Used;
use xsd_actions::Mode;
use xsd_good::row0::Row0;
use xsd_good::{row0, scan};
use xsd_types::contexts;

// The numbers of row 0 but what is used, which goes with the sheet's buffers, and the row of the open type's head.
#[derive(Clone, Copy)]
pub struct Progress {
    pub mode: Mode,
    pub events: u32,
    pub open_tags: u32,
    pub by_standard: bool,
    pub head: usize,
}

// The numbers of row 0, with the head.
#[tactic(auto, unfolding(crate::specs::Progress::progress_of))]
fn progress_at(z: Row0, head: usize) -> Progress
    ensures { result ≡ progress_of (as_row0 z) head }
{
    Progress {
        mode: Mode {
            context: z.context,
            nesting: z.nesting,
            root_seen: z.root_seen == 1,
            extension: z.extension == 1,
        },
        events: z.events,
        open_tags: z.open_tags,
        by_standard: z.choice == 1,
        head,
    }
}

// Where the reading of a sheet stands. The open type's head is known from the test of the sheet, and not looked for again. That the numbers are u32 is said
// since the definitions of a good sheet ask for it, and the buffer's type gives it.
pub fn progress_by(rows: &[u32], known: usize) -> Progress
    requires { (10 ≤ length rows.now) × (10 * rows_used_in (ten rows.now) ≤ length rows.now) × HeadIs rows.now known }
    ensures numbers { result ≡ progress_in rows.now }
    ensures words { words rows.now ≡ true }
{
    let z = row0::row0_at(rows);
    let head = if contexts::SIMPLE_TYPE <= z.context {
        known
    } else {
        scan::open_head(rows, z.rows_used as usize)
    };
    progress_at(z, head)
}

// The same, where the head is not known: one walk from the end finds it.
pub fn progress_of(rows: &[u32]) -> Progress
    requires { (10 ≤ length rows.now) × (10 * rows_used_in (ten rows.now) ≤ length rows.now) }
    ensures numbers { result ≡ progress_in rows.now }
    ensures words { words rows.now ≡ true }
{
    let z = row0::row0_at(rows);
    let head = scan::open_head(rows, z.rows_used as usize);
    progress_at(z, head)
}

// How much of a sheet is used.
pub fn used_of(rows: &[u32]) -> Used
    requires { 10 ≤ length rows.now }
    ensures { result ≡ used_in rows.now }
{
    let z = row0::row0_at(rows);
    Used {
        rows: z.rows_used as usize,
        names: z.names_used as usize,
    }
}

// Row 0 of where a reading stands, as numbers.
pub fn row0_of(p: Progress, used: Used) -> [u32; 10]
    requires { (used.rows ≤ 65536) × (used.names ≤ 65536) }
    ensures { result ≡ row0_numbers p used }
{
    row0::row0_numbers(Row0 {
        first: 0,
        rows_used: used.rows as u32,
        names_used: used.names as u32,
        context: p.mode.context,
        nesting: p.mode.nesting,
        root_seen: u32::from(p.mode.root_seen),
        events: p.events,
        open_tags: p.open_tags,
        extension: u32::from(p.mode.extension),
        choice: u32::from(p.by_standard),
    })
}
