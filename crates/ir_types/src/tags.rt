// Paper 01, "Graph sheet (001, 003)": the tags of the rows, in the order of the numbers. Numbers and no enum: a row is ten numbers in the caller's memory, read also where
// nobody has judged it, and the tests ask for ranges of tags.

// "Row 1: tag 1, namespace"
pub const NAMESPACE: u32 = 1;

// "root (xml name, type name unchanged)"
pub const ROOT: u32 = 2;

// "struct"
pub const STRUCT: u32 = 3;

// "enum"
pub const ENUM: u32 = 4;

// "newtype (a inner)"
pub const NEWTYPE: u32 = 5;

// "code enum"
pub const CODE_ENUM: u32 = 6;

// "value with attributes (name, reference)"
pub const VALUE_WITH_ATTRIBUTES: u32 = 7;

// "opaque (name; a and namespace as in 15)"
pub const OPAQUE: u32 = 8;

// "field (xml, Rust name, reference; b cardinality ..)"
pub const FIELD: u32 = 9;

// "variant (xml, same name, reference)"
pub const VARIANT: u32 = 10;

// "pattern"
pub const PATTERN: u32 = 11;

// "minLength"
pub const MIN_LENGTH: u32 = 12;

// "maxLength"
pub const MAX_LENGTH: u32 = 13;

// "minInclusive"
pub const MIN_INCLUSIVE: u32 = 14;

// "maxInclusive"
pub const MAX_INCLUSIVE: u32 = 15;

// "totalDigits"
pub const TOTAL_DIGITS: u32 = 16;

// "fractionDigits (each as the facet's row)"
pub const FRACTION_DIGITS: u32 = 17;

// "code (xml, Rust name)"
pub const CODE: u32 = 18;

// "attribute (xml, Rust name, reference, b required)"
pub const ATTRIBUTE: u32 = 19;
