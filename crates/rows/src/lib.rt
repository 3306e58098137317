// Rows of a sheet, read and stored: what both sheets' code stands on. Read: `numbers`: the numbers of a row, and the room left; `ten`: a row as
// ten numbers; `parts`: the text under a pair; `form`: the form of a row's pairs; `behind`: what is behind the used parts; `lengths`: the lengths
// that a call may be lent; `part`: the first rows of a sheet; `scan`: one pass over them; `count`: how many have a tag that passes a test; `used`: the texts
// under their pairs; `answers`: what a call answers.
// Stored: `texts`: a row's texts; `row`: the row as a whole; `writer`: a sheet that is written; `append`: a row behind the others; `facets`: those of length and digit facets.
#![tactic(auto)]

pub mod answers;
pub mod append;
pub mod behind;
pub mod count;
pub mod facets;
pub mod form;
pub mod lengths;
pub mod numbers;
pub mod part;
pub mod parts;
pub mod row;
pub mod scan;
pub mod ten;
pub mod texts;
pub mod used;
pub mod writer;
