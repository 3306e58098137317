// The limits of paper 01, in the order of its sections.

// "Tape": "Text at most 65,536 bytes, marks at most 16,384 numbers, attributes at most 32."
pub const TEXT: usize = 65536;

pub const MARKS: usize = 16384;

pub const ATTRIBUTES: usize = 32;

// "Schema sheet": "events are at most 1,000,000, open tags at most 255"
pub const EVENTS: u32 = 1000000;

pub const OPEN_TAGS: u32 = 255;

// "Returned numbers": "a rows length not a multiple of 10, below 20 or above 40,960; names above 65,536"
pub const ROW: usize = 10;

pub const LEAST_ROWS: usize = 20;

pub const ROWS: usize = 40960;

pub const NAMES: usize = 65536;

// Order 13: "an ASCII pattern of up to 1,024 bytes"
pub const PATTERN: usize = 1024;

// "more than 32 bytes `(`"
pub const PATTERN_OPENS: u16 = 32;
