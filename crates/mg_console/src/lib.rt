//! What the programs share: the words of their command lines, the disks in the files that these name, and the lines that they print on
//! standard error.
//!
//! Nothing here changes an answer. [`disk_in`] and [`volume_of`] make a disk and call nothing of it. A function that looks at a disk is
//! generic over it and writes nothing, and none is handed a source or a sink. The words for what a program did, which the programs'
//! contracts use, are in `specs/Programs.antt`.
//!
//! [`Notes`] gets reports from a disk in a file: what fails while a command runs, and how far a copy is. The other functions say which
//! word is wrong, and after a command why it failed and what the file of its volume shows. A line that can't be written on standard
//! error is lost.
#![tactic(auto)]

mod commands;
mod damage;
mod endings;
mod files;
mod mungi;
mod notes;
mod quotes;
mod shown;
mod statuses;
mod usage;
mod volumes;
mod words;

pub use commands::{MUNGI, report_commands};
pub use endings::{report, report_error, report_fault, report_of};
pub use files::{are_one_file, disk_in};
pub use mungi::{report_end, volume_of};
pub use notes::{Notes, Task};
pub use quotes::{Quote, line_of, quoted};
pub use shown::{InFile, Stream};
pub use statuses::{report_filter_status, report_status};
pub use usage::{is_address_told, is_told, report_lines};
pub use volumes::report_volume;
pub use words::{NO_WORDS, begin, word, words_or_tell};
