// The rows of threads.
ghost use Rattle.std.specs.Prelude.{◌≡◌, ◌==◌, true, find, option_map, Some};
ghost use Rattle.mg_volume.specs.Meaning.{threads_in};
ghost use Rattle.mg_volume.specs.Staging.{lives};

use mg_model::ThrRow;
use mg_volume::Volume;

/// The row of a thread that lives.
pub fn row_of(volume: &Volume, thread: u64) -> ThrRow
    requires { lives volume.now thread ≡ true }
    ensures { option_map (λ other. other.row) (find (λ other. other.number == thread) (threads_in volume.now)) ≡ Some result }
{
    match volume.thread(thread) {
        Some(row) => row,
        None => unreachable!(),
    }
}
