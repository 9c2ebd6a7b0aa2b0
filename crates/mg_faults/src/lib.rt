//! The one error of an outside object, and the count of faults that every such object keeps.
//!
//! A disk, a source and a sink may fail at any call. What the layers above learn of it is one fact: a call that
//! answers [`Failed`] raised the object's count of faults, or the count stands at its last value. The words for this
//! (`Rose`, `CountGoesOn`, `HasCause`) stand in `specs/Faults.antt`.
#![tactic(auto)]

mod count;

pub use count::FaultCount;
use thiserror::Error;

/// A call of an outside object failed. It has no fields: why it failed is the object's own business.
#[derive(Debug, Drop, Error)]
#[error("a call of an outside object failed")]
pub struct Failed;
