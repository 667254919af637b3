// Document 01, "Sizes". specs/Sizes.antt has the same numbers for the definitions.

// Entries of a pool; also the largest reference number.
pub const MAX_ENTRIES: usize = 16_777_215;

// Bytes of a text room, of a stream read or written, of a text handed in.
pub const MAX_BYTES: usize = 268_435_455;

// Units of a name.
pub const MAX_NAME: usize = 65_535;

// Units of a stored name: a table's has its mark in front.
pub const MAX_STORED: usize = 65_536;

pub const MAX_COLUMNS: usize = 64;

pub const MAX_ROWS: usize = 65_536;

// The largest Str maximum.
pub const MAX_STRING: u32 = 255;

// A code page has 31 bits.
pub const MAX_CODEPAGE: u32 = 2_147_483_647;
