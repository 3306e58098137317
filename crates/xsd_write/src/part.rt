// The texts of a row.
ghost use Rattle.std.specs.Prelude.{◌≡◌, [], ◌<◌, get_or};
ghost use Rattle.xsd_types.specs.Back.{text0, text1};
ghost use Rattle.xsd_types.specs.Places.{row_at};
ghost use Rattle.xsd_write.specs.Texts.{as_row};

use rows::part::SheetPart;
use rows::parts::part_of;
use rows::ten::Ten;
use xsd_good::forms::row::used_pairs;

// A row's numbers, and the names that its texts are parts of.
#[derive(Clone, Copy)]
pub struct Row<'a> {
    pub names: &'a [u8],
    pub numbers: Ten,
}

impl<'a> Row<'a> {
    // The row at a place of a sheet's part.
    pub fn at(part: &SheetPart<'a>, place: usize) -> Row<'a>
        requires { place < part.now.end }
        ensures row { as_row result ≡ row_at part.now.rows.now part.now.names.now place }
        ensures names { result.names.now ≡ part.now.names.now }
    {
        Row {
            names: part.names,
            numbers: part.ten(place),
        }
    }

    // The text under a pair, from 0 on; empty where the row does not use it.
    fn text(self, k: usize) -> &'a [u8]
        requires { k < 3 }
        ensures { result.now ≡ get_or (as_row self.entry).texts k [] }
    {
        let t = self.numbers;
        if used_pairs(t.tag, t.a) <= k {
            return part_of(self.names, 0, 0);
        }
        let pair = t.pair(k);
        part_of(self.names, pair.at, pair.len)
    }

    #[tactic(auto, unfolding(xsd_types::specs::Back::text0))]
    pub fn first_text(self) -> &'a [u8]
        ensures { result.now ≡ text0 (as_row self.entry) }
    {
        self.text(0)
    }

    #[tactic(auto, unfolding(xsd_types::specs::Back::text1))]
    pub fn second_text(self) -> &'a [u8]
        ensures { result.now ≡ text1 (as_row self.entry) }
    {
        self.text(1)
    }
}
