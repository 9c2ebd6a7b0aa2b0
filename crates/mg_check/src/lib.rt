//! Whether a disk holds a volume, and the rows of one.
//!
//! A layer above learns from [`read_volume`] what the image that reads give spells: no volume, an older one, a damaged one, or
//! a state, exactly by the definition `volume` of `mg_model`, and without a write. Of a volume it gets the rows and the frame
//! table, which keep the rules between rows on every disk: `IsReadAs` and `AreKept` in `RowsRead` of `mg_rules`, the layer
//! below, which has the rules. [`examine`] counts what is in the rows. The tables are read from [`Contents`]: what the
//! journal of a volume gives, or what another crate gives in its place to [`read_rows`].
#![tactic(auto)]

mod accounts;
mod examining;
mod lists;
mod objects;
mod opening;
mod reading;
mod settings;
mod table;
mod table_rows;
mod tables;
mod threads;

pub use examining::{OpenFault, Summary, examine, summary_of};
pub use mg_rules::VolumeRows;
pub use opening::read_volume;
pub use reading::Contents;
pub use settings::is_gate_open;
pub use tables::read_rows;
