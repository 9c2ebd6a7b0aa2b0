//! The page that each frame of a volume holds.
//!
//! A layer above sees a [`Frames`] as a list: the page of each frame, 0 for a free one. No page occurs twice. Beside it
//! there is a list of the bound pages with their frames, which ascends by page, so that a page is found by halving.
#![tactic(auto)]

mod frames;

pub use frames::Frames;
