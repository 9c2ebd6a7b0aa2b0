// A law on turns: each is a call of the machine, and then another row for the thread.
ghost use Rattle.mg_script.specs.Turns.{TurnsAreCalls, TurnsRowsKeepBacked};

use mg_laws::{backing_rests_on_the_domain, calls_rest_on_no_register};

/// The turn of a Ready thread is the call that the effect of its word makes, and then another row for the thread. That row is made
/// from the row after the call and the call's reply. It ends no seat of the validation cache.
pub fn turns_are_calls()
    ensures states { TurnsAreCalls }
    ensures backed { TurnsRowsKeepBacked }
{
    backing_rests_on_the_domain();
    calls_rest_on_no_register();
}
