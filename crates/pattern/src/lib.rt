// Order 13: whether a pattern is a regular expression of XML Schema Part 2 (Second Edition), Appendix F. `tests`: the characters; `class`: a class in
// brackets; `expression`: expression, branch, piece and atom in a cycle; `aside`: the forms that are not judged.
#![tactic(auto)]

mod aside;
mod class;
mod expression;
mod tests;

ghost use Rattle.sheet.specs.Results.{returned_number};
ghost use Rattle.pattern.specs.Call.{Verdict};

use crate::aside::is_aside;
use crate::expression::is_expression;
use sheet::limits;
use sheet::refusal::Refusal;

// Whether a pattern is accepted, or the first refusal that it meets.
pub fn judge(s: &[u8]) -> Result<(), Refusal>
    ensures { Verdict s.now (returned_number result) }
{
    if limits::PATTERN < s.len() {
        return Err(Refusal::BadLength);
    }
    if !s.is_ascii() {
        return Err(Refusal::NotAscii);
    }
    if is_aside(s) {
        return Err(Refusal::PatternAside);
    }
    if is_expression(s) {
        Ok(())
    } else {
        Err(Refusal::NoPattern)
    }
}
