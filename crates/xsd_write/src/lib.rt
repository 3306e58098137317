// Order 8: a schema sheet's finished part written as schema text. `put`: texts put one behind the other into a lent buffer; `decimal`: a number's
// digits; `part`: the texts of a row; `head`, `child`: the text of a row; `body`: all rows; `held`: whether XML can hold the values; `call`: the call.
// Writer and row stand apart: the one is changed and the other read.
#![tactic(auto)]

mod body;
pub mod call;
mod child;
mod decimal;
mod head;
mod held;
mod part;
mod put;
