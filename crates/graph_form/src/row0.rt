// The test of row 0 of a graph sheet: "0, rows used, names used, root elements, types, then zeros."
ghost use Rattle.std.specs.Prelude.{◌≡◌};
ghost use Rattle.ir_types.specs.Row0.{graph_row0_from};
ghost use Rattle.ir_types.specs.Form.{row0_form};
ghost use Rattle.rows.specs.Ten.{as_ten};

use rows::ten::Ten;

#[tactic(auto, unfolding(ir_types::specs::Form::row0_form))]
pub fn row0_form(z: Ten) -> bool
    ensures { result ≡ row0_form (graph_row0_from (as_ten z)) }
{
    (z.tag == 0) & (z.at2 == 0) & (z.len2 == 0) & (z.a == 0) & (z.b == 0) & (z.c == 0)
}
