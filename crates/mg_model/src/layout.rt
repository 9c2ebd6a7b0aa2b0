// The place of everything on a volume, in blocks. The definitions take these numbers from here, under the same names in
// small letters
// (`specs/Layout.antt`).

/// The block of the volume's gate.
pub const GATE_BLOCK: u64 = 0;

/// The superblock.
pub const SUPER_BLOCK: u64 = 1;

/// The version of the layout that this project writes.
pub const VERSION: u64 = 2;

/// How many segments the journal has.
pub const SEGMENT_COUNT: u64 = 8;

/// How many bodies a segment has room for.
pub const BODY_LIMIT: u64 = 160;

/// The blocks of a segment: its gate, its index and the bodies.
pub const SEGMENT_SIZE: u64 = 2 + BODY_LIMIT;

/// The gate of the first segment.
pub const FIRST_SEGMENT: u64 = 2;

/// The block of the period and the other counters, the first block after the journal.
pub const GLOBALS_BLOCK: u64 = FIRST_SEGMENT + SEGMENT_COUNT * SEGMENT_SIZE;

/// The bytes of an account's row.
pub const ACCOUNT_SIZE: usize = 64;

/// The bytes of an object's row.
pub const OBJECT_SIZE: usize = 1024;

/// The first block of the table of accounts.
pub const FIRST_ACCOUNT_BLOCK: u64 = 1299;

/// The first block of the table of threads, which has one row a block.
pub const FIRST_THREAD_BLOCK: u64 = 1315;

/// The first block of the table of objects.
pub const FIRST_OBJECT_BLOCK: u64 = 1571;

/// The first block of the frame table.
pub const TABLE_BLOCK: u64 = 2595;
