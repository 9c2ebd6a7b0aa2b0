//! The pages of a volume: words that are in frames of the disk, and changes that wait for a commit.
//!
//! A layer above reads and writes words of pages by the page's number, stages whole blocks before the frame table, and
//! commits what is staged: at each moment of a commit a stop leaves the old contents or the new. Which frame holds a page
//! shows in no contract, nor which frames' blocks are kept in memory.
//!
//! `specs/Meaning.antt` has the words of the contracts: what is `coming` of an image, the words of a page now, and when the
//! pages stand on a disk.
#![tactic(auto)]

mod blank;
mod blocks;
mod cache;
mod coming;
mod counting;
mod kept;
mod loading;
mod near;
mod pages;
mod pairs;
mod releasing;
mod storing;
mod table;
mod words;

pub use pages::Pages;
