//! The objects of a volume, as they are in the table of objects.
//!
//! A layer above sees [`Objects`] as a list in the order of the bases: each row with its place in the table. A row stays in
//! its place; beside the rows there is an index of their bases, so that an object is found by halving, and one that comes or
//! goes moves no other row. The words of the contracts are in `specs/Held.antt`.
#![tactic(auto)]

mod objects;
mod table;

pub use objects::Objects;
