// Paper 01, "Schema sheet": the tags of the rows, in the order of the numbers. Numbers and no enum: a row is ten numbers in the caller's memory, read also where nobody has
// judged it, and the tests ask for ranges of tags.

// "target namespace (always row 1)"
pub const NAMESPACE: u32 = 1;

// "element (name, type)"
pub const ELEMENT: u32 = 2;

// "simple type (name, base)"
pub const SIMPLE_TYPE: u32 = 3;

// "enumeration (value)"
pub const ENUMERATION: u32 = 4;

// "pattern (value)"
pub const PATTERN: u32 = 5;

// "minLength (a low, b high 32 bits)"
pub const MIN_LENGTH: u32 = 6;

// "maxLength (a low, b high 32 bits)"
pub const MAX_LENGTH: u32 = 7;

// "minInclusive (value)"
pub const MIN_INCLUSIVE: u32 = 8;

// "maxInclusive (value)"
pub const MAX_INCLUSIVE: u32 = 9;

// "totalDigits (a)"
pub const TOTAL_DIGITS: u32 = 10;

// "fractionDigits (a)"
pub const FRACTION_DIGITS: u32 = 11;

// "sequence (name)"
pub const SEQUENCE: u32 = 12;

// "choice (name)"
pub const CHOICE: u32 = 13;

// "simple content (name, base)"
pub const SIMPLE_CONTENT: u32 = 14;

// "any (name; a is 1 and the namespace follows if present)"
pub const ANY: u32 = 15;

// "no content yet (name; only while open)"
pub const NO_CONTENT: u32 = 16;

// "element with bound (name, type, a min, b max)"
pub const BOUND_ELEMENT: u32 = 17;

// "unbounded element (name, type, a min)"
pub const UNBOUNDED_ELEMENT: u32 = 18;

// "choice variant (name, type)"
pub const CHOICE_VARIANT: u32 = 19;

// "attribute (name, type, a required)"
pub const ATTRIBUTE: u32 = 20;
