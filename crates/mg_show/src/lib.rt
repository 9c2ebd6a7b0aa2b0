//! What is in a volume, as text: its whole state, who may reach what, or a graph of it or of a part.
#![tactic(auto)]

mod command;
mod faults;
mod graph;
mod graph_lines;
mod held;
mod lines;
mod marks;
mod pages;
mod reach;
mod state;
mod top_call;
mod writer;

pub use command::{Text, read_words};
pub use top_call::top_show;
