// The limits of the machine. The definitions take them from here, under the same names in small letters (`specs/Limits.antt`).

/// The bytes of a page.
pub const PAGE_SIZE: u64 = 4096;

/// The base of the root object of a fresh machine.
pub const ROOT_BASE: u64 = 0x0000_0001_0000_0000;

/// The first page that an object may have.
pub const FIRST_PAGE: u64 = 1 << 20;

/// The page after the last page that an object may have.
pub const PAGE_END: u64 = 1 << 40;

/// How many objects there may be.
pub const OBJECT_LIMIT: usize = 4096;

/// How many pages an object may have.
pub const OBJECT_PAGE_LIMIT: u64 = 1024;

/// How many password rows an object may have.
pub const PASSWORD_LIMIT: usize = 32;

/// How many entries an object may have.
pub const ENTRY_POINT_LIMIT: usize = 16;

/// Every right: the six bits.
pub const ALL_RIGHTS: u8 = 63;

/// How many entries of a capability list are read.
pub const PAIR_LIMIT: u64 = 255;

/// How many slots a frame of a thread may have.
pub const SLOT_LIMIT: usize = 8;

/// How many frames a thread may have.
pub const FRAME_LIMIT: usize = 16;

/// How many threads there may be.
pub const THREAD_LIMIT: usize = 256;

/// How many accounts there may be.
pub const ACCOUNT_LIMIT: usize = 1024;

/// The last period.
pub const PERIOD_LIMIT: u64 = (1 << 24) - 1;

/// The until of a password row that never ends: it is above every period.
pub const NEVER: u64 = 1 << 24;

/// How many passwords are drawn at most.
pub const DRAW_LIMIT: u64 = 1 << 32;

/// The last birth number.
pub const BIRTH_LIMIT: u64 = (1 << 32) - 1;

/// What an account may owe for each period.
pub const DEBT_LIMIT: u64 = 1 << 36;

/// The least number of frames of a volume.
pub const LEAST_FRAMES: u64 = 16;

/// The greatest number of frames of a volume.
pub const MOST_FRAMES: u64 = 65_536;

/// The most credits that a volume may be made with.
pub const CREDIT_LIMIT: u64 = 1 << 62;

/// The largest number of pages or rate of a step of the tariff.
pub const STEP_LIMIT: u64 = 1 << 20;

/// How many seats the validation cache has.
pub const SEAT_COUNT: usize = 256;

/// How far the number of a seat moves by a page of the base.
pub const PAGE_STRIDE: u64 = 37;

/// How far it moves by a right.
pub const RIGHT_STRIDE: u64 = 101;

/// How many words a search for a right reads at most: a count and 255 entries of two words, in each of 8 lists.
pub const SEARCH_LIMIT: u64 = 4088;
