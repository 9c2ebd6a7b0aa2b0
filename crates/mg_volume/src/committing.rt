// Commits of a volume.
ghost use Rattle.std.specs.Prelude.{◌≡◌, ◌⊎◌, false, IsOk, MatchResult, OnOk};
ghost use Rattle.std.specs.Option.{ForSome};
ghost use Rattle.mg_disk.specs.Stops.{DiskCalls, Leaves};
ghost use Rattle.mg_disk.specs.Reads.{Becomes};
ghost use Rattle.mg_model.specs.Volume.{Is, volume};
ghost use Rattle.mg_volume.specs.Meaning.{CanCommit, SameRows, is_live, now_of, staged_of, words_in};
ghost use Rattle.mg_volume.specs.Opening.{IsSaved};

use crate::volume::Volume;
use mg_disk::Disk;
use mg_faults::Failed;

#[tactic(auto, unfolding(crate::specs::Meaning::settings_in, crate::specs::Meaning::counters_in, crate::specs::Meaning::objects_in, crate::specs::Meaning::accounts_in, crate::specs::Meaning::threads_in, crate::specs::Meaning::now_of, crate::specs::Meaning::staged_of, crate::specs::Meaning::is_live, crate::specs::Meaning::total_of, crate::specs::Meaning::words_in))]
impl Volume {
    /// Makes what is staged durable. With nothing staged no call of the disk is made, and the answer is Ok. After [`Failed`],
    /// which comes only if a call of the disk failed, the volume is not live: the disk has the old state or the new.
    pub fn commit<D: Disk>(&mut self, disk: &mut D) -> Result<(), Failed>
        requires { CanCommit D.Disk self.old disk.old }
        ensures any_moment { ForSome (D.seen disk.old) (λ image. Leaves D.Disk disk.old disk.new (λ c. (volume c ≡ volume image) ⊎ (volume c ≡ Is (now_of self.old image)))) }
        ensures done { OnOk result (Becomes (IsSaved self.old self.new) (D.seen disk.old) (D.seen disk.new)) }
        ensures ready { MatchResult result (λ _. CanCommit D.Disk self.new disk.new) (λ _. is_live self.new ≡ false) }
        ensures staged { OnOk result (staged_of self.new ≡ 0) }
        ensures same { SameRows self.old self.new }
        ensures words { words_in self.new ≡ words_in self.old }
        ensures nothing { staged_of self.old ≡ 0 → (disk.new ≡ disk.old) × IsOk result }
        ensures calls { DiskCalls D.Disk disk.old disk.new result }
    {
        self.pages.commit(disk)
    }
}
