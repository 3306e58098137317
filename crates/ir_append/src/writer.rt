// A graph sheet that rows are added to.
ghost use Rattle.std.specs.Prelude.{◌≡◌, true, [], ◌∷◌, ◌*◌, ◌/◌, ◌%◌, ◌^◌, ◌≤◌, length, replicate};
ghost use Rattle.sheet.specs.Limits.{rows_limit, names_limit};
ghost use Rattle.sheet.specs.Rows.{row};
ghost use Rattle.ir_append.specs.Spelled.{recipe_row, orderly};

use crate::row0::counted_row0;
use crate::{Recipe, put_texts, spelled_row};
use number::{CharacterCount, DigitCount};
use rows::numbers::{Used, halves};
use rows::row::{put_row, put_row0};
use sheet::limits;

// Clears a graph sheet.
pub fn zero_graph(rows: &mut [u32], names: &mut [u8])
    ensures { (rows.new ≡ replicate (length rows.old) 0) × (names.new ≡ replicate (length names.old) 0) }
{
    rows.fill(0);
    names.fill(0);
}

// The rows and names that a graph is written into, and what is used of them. Where a row has no room, what the buffers hold is the caller's to clear.
// Not a `rows::writer::SheetWriter`, which keeps only the last of these four facts; and it holds none, since of buffers in a struct inside a struct the proofs know only the lengths after the loan.
#[derive(Drop)]
pub struct GraphWriter<'a> {
    pub rows: &'a mut [u32],
    pub names: &'a mut [u8],
    pub used: Used,
    ghost rows_inside: { 10 * used.rows ≤ length rows.now },
    ghost names_inside: { used.names ≤ length names.now },
    ghost few_rows: { length rows.now ≤ rows_limit },
    ghost few_names: { length names.now ≤ names_limit },
}

impl<'a> GraphWriter<'a> {
    ghost use Rattle.ir_append.specs.Grows.{Grows};
    ghost use Rattle.ir_append.specs.Whole.{Begins, Closes};

    // A writer of the rows behind row 0, which is written last, since it says how much is used.
    pub fn start(rows: &'a mut [u32], names: &'a mut [u8]) -> GraphWriter<'a>
        requires { (10 ≤ length rows.old) × (length rows.old ≤ rows_limit) × (length names.old ≤ names_limit) }
        ensures same_rows { result.rows.ghost_name ≡ rows.entry.ghost_name }
        ensures same_names { result.names.ghost_name ≡ names.entry.ghost_name }
        ensures begins { Begins rows.old names.old result }
    {
        let used = Used { rows: 1, names: 0 };
        GraphWriter { rows, names, used }
    }

    // Adds the row of a recipe with its texts, or answers `None` where there is no room. Inlined, so that no recipe is stored and read again.
    #[inline(always)]
    pub fn append_spelled(&mut self, recipe: Recipe, first: &[u8], second: &[u8]) -> Option<()>
        requires { orderly recipe ≡ true }
        ensures { Grows self.old (recipe_row recipe first.now second.now ∷ []) self.new result }
    {
        if self.rows.len() < limits::ROW * self.used.rows + limits::ROW {
            return None;
        }
        let at = self.used.names;
        let (n, m, k) = put_texts(self.names, at, recipe, first, second)?;
        let row = spelled_row(recipe, at, n, m, k);
        put_row(self.rows, self.used.rows, row);
        self.used.rows += 1;
        self.used.names = at + n + m + k;
        Some(())
    }

    // Adds the row of a count: its low and high 32 bits.
    fn append_count(&mut self, tag: u32, count: u64) -> Option<()>
        ensures { Grows self.old (row tag [] (count % 2 ^ 32) (count / 2 ^ 32) 0 ∷ []) self.new result }
    {
        let (a, b) = halves(count);
        let recipe = Recipe {
            tag,
            a,
            b,
            c: 0,
            first: None,
            second: None,
            third: None,
        };
        self.append_spelled(recipe, b"", b"")
    }

    // Adds the row of a length facet.
    pub fn grow_characters(&mut self, tag: u32, n: CharacterCount) -> Option<()>
        ensures { Grows self.old (row tag [] (n.0 % 2 ^ 32) (n.0 / 2 ^ 32) 0 ∷ []) self.new result }
    {
        self.append_count(tag, n.0)
    }

    // Adds the row of a digits facet.
    pub fn grow_digits(&mut self, tag: u32, n: DigitCount) -> Option<()>
        ensures { Grows self.old (row tag [] n.0 0 0 ∷ []) self.new result }
    {
        self.append_count(tag, u64::from(n.0))
    }

    // Puts row 0, of a graph of so many root elements and types; how many rows are used.
    pub fn put_row0(&mut self, roots: usize, types: usize) -> usize
        requires { (10 ≤ length self.old.rows.now) × (roots ≤ 65536) × (types ≤ 65536) }
        ensures { Closes self.old roots types self.new result }
    {
        put_row0(self.rows, counted_row0(self.used, roots, types));
        self.used.rows
    }
}
