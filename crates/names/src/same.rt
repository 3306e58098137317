// Names compared byte by byte, as they normalise or as they stand, with no space lent.
ghost use Rattle.std.specs.Prelude.{◌≡◌};
ghost use Rattle.std.specs.Ordering.{nat_cmp};
ghost use Rattle.std.specs.Cmp.Lexicographic.{slice_cmp};
ghost use Rattle.text.specs.Text.{same};
ghost use Rattle.names.specs.Names.{normalize_type_name};
ghost use Rattle.names.specs.Same.{bytes_left, spelled_text};

use crate::reading::reading_of;
use crate::segments::SegmentBytes;
use std::cmp::Ordering;
use text::has_byte;

// A name, as it normalises or as it stands. The flag is the definition's: the heads of an index have it too.
#[derive(Clone, Copy)]
pub struct Spelled<'a> {
    pub name: &'a [u8],
    pub normalised: bool,
}

impl<'a> Spelled<'a> {
    // Its bytes one by one. A name without an underscore normalises to itself.
    pub fn bytes(self) -> SegmentBytes<'a>
        ensures { bytes_left result ≡ spelled_text self.entry }
    {
        let parted = self.normalised && has_byte(self.name, b'_');
        SegmentBytes {
            reading: reading_of(parted),
            rest: self.name,
            separator: b'_',
            lowers: false,
            up: true,
        }
    }

    // Whether two names are the same as they are spelled.
    pub fn is_same(self, other: Spelled) -> bool
        ensures { result ≡ same (spelled_text self.entry) (spelled_text other.entry) }
    {
        self.bytes().eq(other.bytes())
    }

    // How two names stand in order as they are spelled: the first byte that differs decides, and else the shorter one is first.
    pub fn compare(self, other: Spelled) -> Ordering
        ensures { result ≡ slice_cmp nat_cmp (spelled_text self.entry) (spelled_text other.entry) }
    {
        self.bytes().cmp(other.bytes())
    }
}

pub fn same_normalized(a: &[u8], b: &[u8]) -> bool
    ensures { result ≡ same (normalize_type_name a.now) (normalize_type_name b.now) }
{
    let a = Spelled {
        name: a,
        normalised: true,
    };
    let b = Spelled {
        name: b,
        normalised: true,
    };
    a.is_same(b)
}
