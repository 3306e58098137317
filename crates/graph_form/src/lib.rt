// The test of a graph sheet's form (paper 01, "Graph sheet"). `row`: the tests of one row; `row0`: that of row 0; `count`: how many roots and types there are.
#![tactic(auto)]

pub mod count;
pub mod row;
pub mod row0;
pub mod rules;

ghost use Rattle.std.specs.Prelude.{◌≡◌};
ghost use Rattle.sheet.specs.Results.{returned_number};
ghost use Rattle.sheet.specs.Calls.{sheet, answered};
ghost use Rattle.ir_types.specs.Form.{graph_form};
ghost use Rattle.graph_form.specs.Call.{FormIs};

use crate::count::{count_roots, count_types};
use crate::row::GraphRow;
use rows::lengths::{parts_fit, sheet_lengths};
use rows::part::SheetPart;
use rows::scan::scan_sheet;
use rows::ten::ten_of;
use rows::{behind, used};
use sheet::limits;
use sheet::refusal::Refusal;

// Whether the sheet is in the form.
pub fn is_form(rows: &[u32], names: &[u8]) -> bool
    ensures { result ≡ graph_form (sheet rows.now names.now) }
{
    if rows.len() < limits::LEAST_ROWS {
        return false;
    }
    let z = ten_of(rows);
    if !parts_fit(z.at0, z.len0, rows.len(), names.len()) {
        return false;
    }
    let part = SheetPart {
        rows,
        names,
        end: z.at0 as usize,
    };
    let names_end = z.len0 as usize;
    let roots = z.at1 as usize;
    let types = z.len1 as usize;
    let row1 = part.ten(1);
    let Some(s) = scan_sheet::<GraphRow>(&part, row1, z.len0) else {
        return false;
    };
    row0::row0_form(z)
        & (s.end == names_end)
        & (roots == count_roots(&part))
        & (types == count_types(&part))
        & behind::zeros_behind(rows, names, part.end, names_end)
        & used::names_test::<GraphRow>(&part, names_end)
}

// Whether the lengths are those of a sheet and it is in the form.
#[tactic(auto, unfolding(crate::specs::Call::form_answer, sheet::specs::Lengths::lengths_of, sheet::specs::Lengths::good_lengths))]
pub fn judge_graph(rows: &[u32], names: &[u8]) -> Result<(), Refusal>
    ensures { FormIs (sheet rows.now names.now) (answered (returned_number result) 0) }
{
    if !sheet_lengths(rows.len(), names.len()) {
        return Err(Refusal::BadLength);
    }
    if is_form(rows, names) {
        Ok(())
    } else {
        Err(Refusal::GraphForm)
    }
}
