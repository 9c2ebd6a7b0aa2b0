// What a turn reads and costs.
ghost use Rattle.mg_script.specs.TurnCosts.{TurnsSearchAsCalls};

/// A turn makes the fetch, and then what its call makes. Its accesses are the fetch and those of its call. Its words are the
/// word that it may fetch and those of its call. If the turn is calm, its call disturbs nothing. This holds of every thread, in
/// every state.
pub fn turns_search_as_calls()
    ensures { TurnsSearchAsCalls }
{}
