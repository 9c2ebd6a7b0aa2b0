// Whose a thread is.
ghost use Rattle.std.specs.Prelude.{◌≡◌, ◌≤◌, ◌==◌, ◌||◌, MatchOption, true};
ghost use Rattle.mg_calls_thr.specs.Owning.{birth_among, own_refusal};
ghost use Rattle.mg_volume.specs.Meaning.{threads_in};
ghost use Rattle.mg_volume.specs.Staging.{lives};

use mg_access::row_of;
use mg_model::{Refusal, ThrRow};
use mg_volume::Volume;

/// Why the thread with a number is not for a thread, which lives, to end or to resume: no thread has the number (NoThread), or one
/// that is neither the thread itself nor created by it (NotYours).
pub(crate) fn not_own(volume: &Volume, thread: u64, number: u64) -> Option<Refusal>
    requires { lives volume.now thread ≡ true }
    ensures word { result ≡ own_refusal (threads_in volume.now) thread number }
    ensures may { MatchOption result ((1 ≤ number) × (number ≤ 256) × (lives volume.now number ≡ true)) (λ _. Unit {0}) }
{
    let Some(row) = volume.thread(number) else {
        return Some(Refusal::NoThread);
    };
    if !is_own(volume, &row, thread, number) {
        return Some(Refusal::NotYours);
    }
    None
}

// Whether the thread with this number and this row is the given thread itself or created by it. Numbers are used again and births
// are not, so births are compared.
fn is_own(volume: &Volume, row: &ThrRow, thread: u64, number: u64) -> bool
    requires { lives volume.now thread ≡ true }
    ensures { result ≡ (number == thread || row.now.creator == birth_among (threads_in volume.now) thread) }
{
    number == thread || row.creator() == birth_of(volume, thread)
}

// The birth of a thread that lives.
fn birth_of(volume: &Volume, thread: u64) -> u64
    requires { lives volume.now thread ≡ true }
    ensures { result ≡ birth_among (threads_in volume.now) thread }
{
    row_of(volume, thread).birth()
}
