// How many roots and types the rows of a graph sheet behind row 1 have.
ghost use Rattle.std.specs.Prelude.{◌≡◌, ◌-◌, ◌≤◌, drop};
ghost use Rattle.sheet.specs.Rows.{tens};
ghost use Rattle.ir_types.specs.Form.{is_type_tag, count, tags_of};
ghost use Rattle.graph_form.specs.Tests.{is_root};

use crate::row::is_type;
use ir_types::tags;
use rows::count::count_tags;
use rows::part::SheetPart;

pub fn count_roots(part: &SheetPart) -> usize
    requires { 2 ≤ part.now.end }
    ensures { result ≡ count is_root (tags_of (tens (part.now.end - 2) (drop 20 part.now.rows.now))) }
{
    count_tags(part, |tag| tag == tags::ROOT)
}

pub fn count_types(part: &SheetPart) -> usize
    requires { 2 ≤ part.now.end }
    ensures { result ≡ count is_type_tag (tags_of (tens (part.now.end - 2) (drop 20 part.now.rows.now))) }
{
    count_tags(part, is_type)
}
