//! A law of the text that `mg_show` puts of a state: it tells the state. It is the contract of a public function, which does
//! nothing when it runs.
//!
//! `specs/TextLaws.antt` has the statement, on a text; the contract says of which text it holds. Nothing stands on this crate.
#![tactic(auto)]

ghost use Rattle.mg_show.specs.StateText.{state_text};
ghost use Rattle.mg_show_laws.specs.TextLaws.{TellsState};

/// Two well-formed states with one text are one state. So nothing of a state is left out of its text: settings, counters,
/// accounts, objects with their passwords, entries, extension and words, and threads with their registers and frames.
pub fn text_tells_the_state()
    ensures { TellsState state_text }
{}
