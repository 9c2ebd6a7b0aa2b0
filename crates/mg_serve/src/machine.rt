// The trait that the loop over the input is proved against.
ghost use Rattle.std.specs.Prelude.{ℕ, ◌≡◌, ◌≤◌, ◌⊎◌, Bool, List, [], ◌∷◌, ◌++◌, IfOk, IsTrue, MatchResult, OnOk, is_ok};
ghost use Rattle.std.specs.Option.{ForSome};
ghost use Rattle.mg_disk.specs.Disk.{Image};
ghost use Rattle.mg_disk.specs.Stops.{DiskCalls, Leaves, NothingPending};
ghost use Rattle.mg_disk.specs.declared.disk.Disk.{Ghosts};
ghost use Rattle.mg_model.specs.FewSlots.{HasFewSlots};
ghost use Rattle.mg_model.specs.State.{State};
ghost use Rattle.mg_model.specs.Volume.{Is, volume};
ghost use Rattle.mg_model.specs.declared.calls.Line.{Line};
ghost use Rattle.mg_serve.specs.Machines.{AnswersLine, Commits, Rests, ServesOn};

use mg_disk::Disk;
use mg_faults::Failed;
use mg_model::{Line, Reply, Steps};
use std::sync::ledger::Ledger;

/// A machine that steps lines over a disk and commits what they changed.
///
/// What it is, is given by two functions of the lines to come: the text of its replies to them, and the state of its volume
/// after them. A session depends on these two alone.
pub trait Machine {
    /// Whether it may be called. After a commit that failed it may not.
    ghost is_live: { Self → Bool };

    /// How many blocks are staged for the next commit.
    ghost staged_of: { Self → ℕ };

    /// The count of the words that its steps took, as the machine keeps it.
    ghost words_in: { Self → ℕ };

    /// It belongs to what the disk holds now.
    ghost StandsOn: { (D : Type 0) → Ghosts D → Self → D → Type 0 };

    /// The text of its replies to these lines, if reads give this image.
    ghost said: { Self → Image → List Line → List ℕ };

    /// The state of its volume after these lines.
    ghost kept: { Self → Image → List Line → State };

    /// What else it says of lines that were stepped: from this machine and image, these lines, with the counter of words
    /// before them and now, to this machine.
    ghost Stepped: { Self → Image → List Line → ℕ → ℕ → Self → Type 0 };

    /// As `Stepped`, if the last of the lines failed.
    ghost StoppedIn: { Self → Image → List Line → ℕ → ℕ → Self → Type 0 };

    /// What holds of each machine that stands on a disk. Nothing is done.
    fn keep_rules<D: Disk>(&self, disk: &D)
        requires stands { StandsOn D D.Disk self.now disk.now }
        ensures settled { NothingPending D.Disk disk.now }
        ensures spelled { staged_of self.now ≡ 0 → ForSome (D.seen disk.now) (λ image. volume image ≡ Is (kept self.now image [])) }
        ensures none { (image : Image) → said self.now image [] ≡ [] }
        ensures begins { (image : Image) (n : ℕ) → Stepped self.now image [] n n self.now };

    /// How many blocks are staged, 0 to 160.
    fn staged(&self) -> usize
        ensures { result ≡ staged_of self.now };

    /// One line is stepped: its reply. Nothing is written.
    ///
    /// # Errors
    ///
    /// [`Failed`] comes only if a call of the disk failed; what the machine says and keeps is then lost to the session.
    fn step<D: Disk, L: Ledger>(
        &mut self,
        disk: &mut D,
        line: &Line,
        steps: &mut Steps<L>,
    ) -> Result<Reply, Failed>
        requires live { IsTrue (is_live self.old) }
        requires stands { StandsOn D D.Disk self.old disk.old }
        requires staged { staged_of self.old ≤ 28 }
        ensures answers { IfOk result (λ reply. ForSome (D.seen disk.old) (λ image.
            AnswersLine (said self.old image) (kept self.old image) (said self.new image) (kept self.new image) line.now reply)) }
        ensures traces { ForSome (D.seen disk.old) (λ image. (first : Self) (start : Image) (ls : List Line) (n : ℕ)
            → kept first start ls ≡ kept self.old image [] → Stepped first start ls n steps.old self.old
            → MatchResult result (λ _. Stepped first start (ls ++ line.now ∷ []) n steps.new self.new)
            (λ _. StoppedIn first start (ls ++ line.now ∷ []) n steps.new self.new)) }
        ensures slots { IfOk result HasFewSlots }
        ensures serves { ServesOn D.Disk (StandsOn D D.Disk self.new disk.new) (is_live self.old) (is_live self.new)
            (words_in self.old) (words_in self.new) disk.old disk.new steps.old steps.new }
        ensures calls { DiskCalls D.Disk disk.old disk.new result };

    /// What is staged is committed.
    ///
    /// # Errors
    ///
    /// [`Failed`] comes only if a call of the disk failed; a stop then leaves the state of before or the new one, and the
    /// machine is not live.
    fn commit<D: Disk>(&mut self, disk: &mut D) -> Result<(), Failed>
        requires live { IsTrue (is_live self.old) }
        requires stands { StandsOn D D.Disk self.old disk.old }
        ensures any_moment { ForSome (D.seen disk.old) (λ image. Leaves D.Disk disk.old disk.new (λ c.
            (volume c ≡ volume image) ⊎ (volume c ≡ Is (kept self.old image [])))) }
        ensures done { OnOk result (ForSome (D.seen disk.old) (λ image.
            Commits (said self.old image) (kept self.old image) (said self.new) (kept self.new) (D.seen disk.new))) }
        ensures stepped { (first : Self) (start : Image) (ls : List Line) (n steps : ℕ)
            → Stepped first start ls n steps self.old → Stepped first start ls n steps self.new }
        ensures rests { OnOk result (Rests D.Disk (StandsOn D D.Disk self.new disk.new) (staged_of self.new) disk.new) }
        ensures live { is_live self.new ≡ is_ok result }
        ensures words { words_in self.new ≡ words_in self.old }
        ensures calls { DiskCalls D.Disk disk.old disk.new result };
}
