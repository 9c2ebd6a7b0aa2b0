// What a word will be once what is staged is committed.
ghost use Rattle.std.specs.Prelude.{◌≡◌, ◌≢◌, ◌≤◌, ◌<◌, ◌*◌, true, IfOk, IsSomeAnd, MatchOption, None, length, slice_index};
ghost use Rattle.std.specs.Option.{ForSome};
ghost use Rattle.mg_disk.specs.Disk.{block_at};
ghost use Rattle.mg_journal.specs.Standing.{Stands, total_of};
ghost use Rattle.mg_model.specs.Layout.{first_frame};
ghost use Rattle.mg_model.specs.Volume.{page_words};
ghost use Rattle.mg_pages.specs.Held.{IsSound};
ghost use Rattle.mg_pages.specs.Kept.{AreKept};
ghost use Rattle.mg_pages.specs.Meaning.{replayed};
ghost use Rattle.mg_pages.specs.Parts.{LooksAt, coming_of};

use crate::blocks::Blocks;
use crate::near::Near;
use crate::table::frame_block;
use mg_disk::Disk;
use mg_faults::Failed;
use mg_frames::Frames;

/// The word at an index of a page as it will be, 0 if no frame holds the page.
pub(crate) fn page_word<D: Disk>(
    blocks: &mut Blocks,
    frames: &Frames,
    near: &mut Near,
    disk: &mut D,
    page: u64,
    index: u64,
) -> Result<u64, Failed>
    requires stands { Stands D.Disk blocks.old.store disk.old }
    requires sound { IsSound (total_of blocks.old.store) frames.now blocks.old.writes }
    requires page { page ≢ 0 }
    requires index { index < 512 }
    ensures word { IfOk result (λ word. ForSome (D.seen disk.old) (λ image. AreKept (first_frame (length frames.now)) (replayed (total_of blocks.old.store) image) blocks.old.kept
        → word ≡ slice_index (page_words (coming_of blocks.old.store blocks.old.writes image) (length frames.now) frames.now page) index)) }
    ensures staged { blocks.new.writes ≡ blocks.old.writes }
    ensures looks { LooksAt D.Disk blocks.old blocks.new disk.old disk.new result }
{
    match near.frame_of(frames, page) {
        Some(frame) => blocks.word(disk, frame_block(frames.len(), frame), index),
        None => Ok(0),
    }
}
