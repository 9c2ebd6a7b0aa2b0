//! The program `mungi_dev`, over any two disks, devices, source and sink: from the words to the exit status.
//!
//! [`carry_out`] calls [`mg_mirror_session::top_mirror`] if the second word is `mirror`, and otherwise
//! [`mg_window_session::top_dev_of`]. It ensures what these two ensure for the words. It also ensures that the exit status is the
//! number of their status, and that outside of these calls the disks are only read. The program makes the real objects and exits with
//! the number. The devices are of any one type. The program makes boxed ones, and a contract about boxes would prove nothing there.
//!
//! The definitions are in `specs/Program.antt`.
#![tactic(auto)]

mod bases;
mod program;
mod usage;

pub use program::{Ended, carry_out, is_mirror};

/// The program's name.
pub const NAME: &str = "mungi_dev";
