// The object of a word.
ghost use Rattle.std.specs.Prelude.{◌≡◌, ◌/◌, ◌%◌, true, IfOk, MatchResult, None, Some};
ghost use Rattle.std.specs.Option.{ForSome};
ghost use Rattle.mg_access.specs.Finding.{FindsWord};
ghost use Rattle.mg_access.specs.Searching.{access_refusal, allowed_row};
ghost use Rattle.mg_model.specs.Access.{covers};
ghost use Rattle.mg_model.specs.Limits.{page_size};
ghost use Rattle.mg_vcache.specs.Seats.{AllBacked};
ghost use Rattle.mg_volume.specs.Calls.{IsSoundOn};
ghost use Rattle.mg_volume.specs.Meaning.{has_page, now_of};

use crate::validating::reach;
use mg_disk::Disk;
use mg_faults::Failed;
use mg_laws::accesses_keep_the_rules_of_a_line;
use mg_model::{ObjRow, Refusal, Right, Steps};
use mg_vcache::VCache;
use mg_volume::Volume;
use std::sync::ledger::Ledger;

/// The bytes of a word.
const WORD: u64 = 8;

/// The object of the word that a thread reads, writes, enters by or begins at, or why it may not: an address that is no
/// multiple of 8 (Align) is refused before any word is read, and then one that it may not reach with the right (Denied), also
/// if no such thread lives. What is read and kept is as by `reach`. [`Failed`] comes only if a call of the disk failed.
/// The state stays.
pub fn word_object<D: Disk, L: Ledger>(
    volume: &mut Volume,
    cache: &mut VCache,
    disk: &mut D,
    thread: u64,
    address: u64,
    right: Right,
    steps: &mut Steps<L>,
) -> Result<Result<ObjRow, Refusal>, Failed>
    requires sound { IsSoundOn D.Disk volume.old disk.old }
    requires backed { ForSome (D.seen disk.old) (λ image. AllBacked (now_of volume.old image) cache.old) }
    ensures refusal { IfOk result (λ object. ForSome (D.seen disk.old) (λ image. MatchResult object (λ _. access_refusal (now_of volume.old image) thread address right ≡ None) (λ word. access_refusal (now_of volume.old image) thread address right ≡ Some word))) }
    ensures row { IfOk result (λ answer. IfOk answer (λ object. ForSome (D.seen disk.old) (λ image. Some object ≡ allowed_row (now_of volume.old image) thread address right))) }
    ensures place { IfOk result (λ answer. IfOk answer (λ object. (covers object address ≡ true) × (has_page volume.new (address / page_size) ≡ true) × (address % 8 ≡ 0))) }
    ensures finds { FindsWord D.Disk (record { thread = thread; address = address; right = right }) result volume.old volume.new cache.old cache.new disk.old disk.new steps.old steps.new }
{
    accesses_keep_the_rules_of_a_line();
    if address % WORD != 0 {
        return Ok(Err(Refusal::Align));
    }
    match reach(volume, cache, disk, thread, address, right, steps)? {
        Some(object) => Ok(Ok(object)),
        None => Ok(Err(Refusal::Denied)),
    }
}
