//! Rows as bytes: accounts, threads, objects and the globals, read and written.
//!
//! A layer above gets what some bytes spell: nothing, that a row is free ([`Spelled::Free`]), or a row. A row is spelled in
//! one way alone. So a reader accepts bytes exactly when their fields keep the rules and writing them gives the bytes back,
//! and a row that was written is read as it was: [`rows_are_spelled_in_one_way`].
//!
//! A block has four objects or 64 accounts: [`object_in`], [`account_in`], [`put_object`] and [`put_account`] name a row by
//! its place there, so that no layer above counts bytes.
//!
//! How each row is spelled is defined in `mg_model`, in `Spelling`. `specs/Answers.antt` turns a reader's answer into what
//! is read there, and `specs/Blocks.antt` has what a place of a block spells.
#![tactic(auto)]

mod accounts;
mod blocks;
mod bytes;
mod globals;
mod laws;
mod object_parts;
mod objects;
mod spelled;
mod threads;

pub use accounts::{
    ACCOUNTS_START, MOST_START_ACCOUNTS, accounts_start, read_account, write_account,
};
pub use blocks::{account_in, object_in, put_account, put_object};
pub use globals::{GLOBALS_START, globals_start, read_globals, write_globals};
pub use laws::{rows_are_spelled_in_one_way, threads_change_by_words};
pub use objects::{read_object, write_object};
pub use spelled::Spelled;
pub use threads::{
    MOST_START_FRAMES, THREAD_START, read_thread, state_number, thread_block, thread_start,
    write_thread,
};
