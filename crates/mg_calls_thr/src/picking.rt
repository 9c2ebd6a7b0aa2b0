// Which thread has the next turn.
ghost use Rattle.std.specs.Prelude.{List, ◌≡◌, ℕ, option_map};
ghost use Rattle.mg_model.specs.Turn.{picked};
ghost use Rattle.mg_volume.specs.Meaning.{now_of};

use mg_volume::Volume;

/// The number of the thread that has the next turn: of those that are Ready the lowest above the cursor, or else the lowest;
/// None exactly if no thread is Ready.
pub fn pick(volume: &Volume) -> Option<u64>
    ensures { (image : List (List ℕ)) → result ≡ option_map (λ thread. thread.number) (picked (now_of volume.now image)) }
{
    volume.next_ready()
}
