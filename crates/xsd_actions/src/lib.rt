// What an event does to a schema sheet: the reader's mode, and the decisions, whose texts are parts of the text of the tape.
#![tactic(auto)]

use number::{CharacterCount, DigitCount};

// What the handlers go by, beside the open head: the context, nesting, root seen and extension flag of row 0. Context and nesting
// may be any number: progress_of reads them from sheets that nobody has judged.
#[derive(Clone, Copy)]
pub struct Mode {
    pub context: u32,
    pub nesting: u32,
    pub root_seen: bool,
    pub extension: bool,
}

// A row to add: its tag, its texts, none, one or two, of which the second stands behind a first, and its numbers. The numbers stand here and not in RowNumbers of
// `rows`: what is decided knows no buffers of a sheet.
#[derive(Clone, Copy)]
pub struct NewRow<'a> {
    pub tag: u32,
    pub first: Option<&'a [u8]>,
    pub second: Option<&'a [u8]>,
    pub a: u32,
    pub b: u32,
    pub c: u32,
}

// A type to open: its name, and the number of the event that gives the name.
#[derive(Clone, Copy)]
pub struct NewType<'a> {
    pub name: &'a [u8],
    pub event: u32,
}

// The row of a facet that counts to add: characters for a length facet, digits for a digit facet.
#[derive(Clone, Copy)]
pub struct Facet<Count> {
    pub tag: u32,
    pub count: Count,
}

// Another content for the open complex type: its tag, and the text that follows the name, if one does.
#[derive(Clone, Copy)]
pub struct NewContent<'a> {
    pub tag: u32,
    pub second: Option<&'a [u8]>,
    pub a: u32,
}

// What is to be done for an event.
#[derive(Clone, Copy)]
pub enum Decision<'a> {
    Keep,
    Root(&'a [u8]),
    OpenSimple(NewType<'a>),
    OpenComplex(NewType<'a>),
    Add(NewRow<'a>),
    Characters(Facet<CharacterCount>),
    Digits(Facet<DigitCount>),
    Content(NewContent<'a>),
    Base(&'a [u8]),
}
