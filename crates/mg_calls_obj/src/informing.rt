// What a reply says of an object.
ghost use Rattle.std.specs.Prelude.{List, ◌≡◌, ℕ, true};
ghost use Rattle.std.specs.Option.{ForSome};
ghost use Rattle.mg_access.specs.Served.{CallReads, of_call};
ghost use Rattle.mg_calls_obj.specs.Based.{OfBase, is_object};
ghost use Rattle.mg_model.specs.ObjectCalls as calls;
ghost use Rattle.mg_vcache.specs.Seats.{AllBacked};
ghost use Rattle.mg_volume.specs.Calls.{IsSoundOn};
ghost use Rattle.mg_volume.specs.Meaning.{now_of};

use crate::based::object_at;
use mg_access::reach;
use mg_disk::Disk;
use mg_faults::Failed;
use mg_laws::accesses_keep_the_rules_of_a_line;
use mg_model::{Call, Line, ObjRow, Refusal, Reply, Right, Steps};
use mg_vcache::VCache;
use mg_volume::Volume;
use std::sync::ledger::Ledger;

/// The rights in the order of their bits.
const RIGHTS: [Right; 6] = [Right::R, Right::W, Right::X, Right::D, Right::P, Right::O];

/// What [`info`] says of the object that has an address, to a thread with any right to it; one with none is refused (Denied), also
/// if no such thread lives. Rights are tried in the order of their bits, and none after the first that is given.
/// [`Failed`] comes only if a call of the disk failed. The state stays.
pub fn validated_info<D: Disk, L: Ledger>(
    volume: &mut Volume,
    cache: &mut VCache,
    disk: &mut D,
    thread: u64,
    address: u64,
    steps: &mut Steps<L>,
) -> Result<Reply, Failed>
    requires sound { IsSoundOn D.Disk volume.old disk.old }
    requires backed { ForSome (D.seen disk.old) (λ image. AllBacked (now_of volume.old image) cache.old) }
    ensures { CallReads D.Disk (of_call thread (Call.Info address)) result volume.old volume.new cache.old cache.new disk.old disk.new steps.old steps.new }
{
    accesses_keep_the_rules_of_a_line();
    for right in RIGHTS {
        match reach(volume, cache, disk, thread, address, right, steps)? {
            Some(object) => return Ok(about(&object)),
            None => {}
        }
    }
    Ok(Reply::No(Refusal::Denied))
}

/// What a reply says of the object with this base: its base, its pages, its account, how many passwords and entries it has, and whether
/// it has an extension. Nothing changes.
///
/// Whether a thread has a right to it is not asked: [`validated_info`] asks.
pub fn info(volume: &Volume, base: u64) -> Reply
    requires there { is_object volume.now base ≡ true }
    ensures { OfBase base volume.now (λ object. result ≡ calls.about object) }
{
    about(&object_at(volume, base))
}

// What a reply says of an object with this row.
fn about(object: &ObjRow) -> Reply
    ensures { result ≡ calls.about object.now }
{
    Reply::About {
        base: object.base(),
        pages: object.pages(),
        account: object.account(),
        passwords: object.passwords().len() as u64,
        entries: object.entries().len() as u64,
        ext: object.ext().is_some() as u64,
    }
}
