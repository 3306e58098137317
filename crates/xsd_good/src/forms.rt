// The tests of one row of a schema sheet.
pub mod row;
pub mod rules;
