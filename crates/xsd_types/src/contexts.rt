// Paper 01, "Schema sheet": the contexts of row 0. They are numbers and no enum: row 0 is in the memory of the caller, and the mode is read from it, with the number that
// stands there, also where nobody has judged the sheet.

// "0 none"
pub const NONE: u32 = 0;

// "1 schema"
pub const SCHEMA: u32 = 1;

// "2 simple type"
pub const SIMPLE_TYPE: u32 = 2;

// "3 complex type"
pub const COMPLEX_TYPE: u32 = 3;
