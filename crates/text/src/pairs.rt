// Characters of two bytes: which two bytes are one, in a tape or a sheet, and in a graph.
ghost use Rattle.std.specs.Prelude.{◌≡◌};
ghost use Rattle.text.specs.Text.{is_pair};

use crate::ascii;

// Whether the two bytes are a character that a tape or a sheet may hold.
#[tactic(auto, unfolding(crate::specs::Text::is_pair, crate::specs::Text::is_tail))]
pub fn is_pair(lead: u8, tail: u8) -> bool
    ensures { result ≡ is_pair lead tail }
{
    ascii::in_range(0xC2, 0xC5, lead) && ascii::in_range(0x80, 0xBF, tail)
}

// A rule that says which two bytes are a character.
pub trait Pairs {
    ghost use Rattle.std.specs.Prelude.{ℕ, Bool, false};

    ghost rule: { ℕ → ℕ → Bool };

    fn holds(lead: u8, tail: u8) -> bool
        ensures { result ≡ rule lead tail };

    // No character begins with 255, which stands for bytes that no text goes on from.
    ghost no_lead: { (b : ℕ) → rule 255 b ≡ false };
}

// Those of a tape and of a sheet.
pub struct SheetPairs;

impl Pairs for SheetPairs {
    ghost use Rattle.text.specs.Leads.{no-lead};

    ghost rule = { is_pair };

    fn holds(lead: u8, tail: u8) -> bool {
        is_pair(lead, tail)
    }

    ghost no_lead = { no-lead };
}

// Those of a graph, three more.
pub struct GraphPairs;

impl Pairs for GraphPairs {
    ghost use Rattle.text.specs.Text.{is_graph_pair};
    ghost use Rattle.text.specs.Leads.{no-graph-lead};

    ghost rule = { is_graph_pair };

    #[tactic(auto, unfolding(crate::specs::Text::is_graph_pair))]
    fn holds(lead: u8, tail: u8) -> bool {
        is_pair(lead, tail)
            || lead == 0xCA && tail == 0xBC
            || lead == 0xCC && tail == 0x87
            || lead == 0xCE && tail == 0x9C
    }

    ghost no_lead = { no-graph-lead };
}
