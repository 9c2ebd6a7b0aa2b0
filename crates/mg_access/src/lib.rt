//! What a thread may reach: the object that an address names, if the access is allowed.
//!
//! `reach` gives the row of that object, which is what calls on an object begin with, and `validate` its base. Both ask the
//! validation cache first, and search the thread's capability lists if it does not keep the right. What both keep is one record of
//! `specs/Finding.antt`.
//! `word_object` is what the calls on a word begin with, and `row_of` those on the row of a thread.
//!
//! A layer above learns that an access is allowed exactly if the definition allows it, that the state stays and each kept right is
//! backed by it, and what is kept and counted, in the words of `mg_model`'s `specs/Kept.antt`. It gets the words for its calls
//! here, too: all that a call with the disk keeps is one record of `specs/Served.antt`, and `specs/Backing.antt` says what a call
//! without the disk leaves of the rights that are kept.
//!
//! `specs/Searching.antt` has what a search asks of the words of capability lists, and `specs/Known.antt` which rights are kept by
//! the rows that are held. `specs/ReachedLemmas.antt` says what follows from what was reached, `specs/FoundLemmas.antt` what from a
//! row that is held, `specs/WordLemmas.antt` and `specs/FindingLemmas.antt` what the access of a word keeps,
//! `specs/RefusalLemmas.antt` what follows from a refusal of `word_object`, `specs/LineLemmas.antt` what a line keeps and counts by its
//! accesses, `specs/ServedLemmas.antt` what a call keeps that was answered after reads alone, and `specs/ThreadLemmas.antt` what the
//! state has of a row that is held.
#![tactic(auto)]

mod lists;
mod rows;
mod validating;
mod words;

pub use rows::row_of;
pub use validating::{reach, validate};
pub use words::word_object;
