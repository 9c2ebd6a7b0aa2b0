//! The session over a volume with device windows: from the words `VOLUME dev KIND:BASE ..` to the exit status.
//!
//! [`top_dev`] runs the source's lines on the volume of a disk, as `mg_session` does, but a load or a store that falls into an
//! object with a device reaches the device, and says at the end which devices are left. What the layer above learns is in its contract,
//! for every disk, source and sink.
//!
//! The definitions are in `specs/`: `Commands` (what the words spell), `Machine` (the machine with devices), `Headline` (what is kept,
//! in one record) and `History` (runs one after another); `DeviceKernels` and `Stepping` are for the proofs.
#![tactic(auto)]

mod device_kernel;
mod device_lines;
mod history;
mod running;
mod stepping;
mod top_call;
mod words;

pub use history::runs_with_devices_follow;
pub use top_call::{top_dev, top_dev_of};
pub use words::{Asked, read_device, read_words};
