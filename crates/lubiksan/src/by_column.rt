// Order 10 exported: rows of a graph as columns, and back.
ghost use Rattle.columns.specs.Call.{ColumnsIs, RowsIs};

use sheet::refusal::returned_number;

// Turns rows into ten columns of differences and gives the number; the place, 0, is stored.
#[unsafe(no_mangle)]
pub extern "C" fn lubiksan_columns(rows: &[u32], columns: &mut [u32], place: &mut usize) -> u32
    ensures { ColumnsIs rows.now columns.old result place.new columns.new }
{
    *place = 0;
    returned_number(columns::to_columns(rows, columns))
}

// Turns such columns into rows and gives the number; the place, 0, is stored.
#[unsafe(no_mangle)]
pub extern "C" fn lubiksan_rows(columns: &[u32], rows: &mut [u32], place: &mut usize) -> u32
    ensures { RowsIs columns.now rows.old result place.new rows.new }
{
    *place = 0;
    returned_number(columns::to_rows(columns, rows))
}
