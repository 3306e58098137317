// Order 1: schema text read by XML 1.0 (Fifth Edition) into a tape. Each step takes the text and a position, and answers where it ends.
// The text and the bound of its length are no struct of their own: each call of a step of `xml_parts`, which takes any text, would take it apart again.
// The slots and the marks are no struct either: a tag is lent a part of the slots with all the marks, and an end tag only reads the slots, so that each tag would
// take it apart. What holds between the lengths of text and slots is a clause for that reason.
#![tactic(auto)]

pub mod call;
pub mod marks;
pub mod onward;
pub mod root;
pub mod tags;
