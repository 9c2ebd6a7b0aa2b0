// Whether an access is allowed: by what is kept of earlier ones, or by a search.
ghost use Rattle.std.specs.Prelude.{◌≡◌, ◌==◌, ℕ, true, false, find, if◌then◌else◌, is_some, option_map, IfOk, IfSome, MatchOption, None, Some};
ghost use Rattle.std.specs.Option.{ForSome};
ghost use Rattle.mg_access.specs.Finding.{Finds};
ghost use Rattle.mg_access.specs.Known.{rows_know};
ghost use Rattle.mg_access.specs.Searching as searching;
ghost use Rattle.mg_model.specs.Access.{allowed, at, covers};
ghost use Rattle.mg_model.specs.Ranges.{IsObjectRow};
ghost use Rattle.mg_vcache.specs.Seats.{AllBacked, is_kept};
ghost use Rattle.mg_volume.specs.Calls.{IsSoundOn, Reads};
ghost use Rattle.mg_volume.specs.Meaning.{IsBaseAt, now_of, objects_in};

use crate::lists::{Sought, list_of};
use mg_disk::Disk;
use mg_faults::Failed;
use mg_laws::backed_seats_are_allowed;
use mg_model::{ObjRow, Right, Steps};
use mg_vcache::VCache;
use mg_volume::Volume;
use std::sync::ledger::Ledger;

/// The row of the object that has an address, if a thread may reach it with the right; None if it may not, or no such
/// thread lives. It is the row with its base, too.
///
/// If the right is kept, no word is read and no call is made on the disk; else at most 4,088 words are read, and a right
/// that is found is kept then, in its own seat. [`Failed`] comes only if a call of the disk failed. The state stays, and
/// so does each seat if no row is given.
pub fn reach<D: Disk, L: Ledger>(
    volume: &mut Volume,
    cache: &mut VCache,
    disk: &mut D,
    thread: u64,
    address: u64,
    right: Right,
    steps: &mut Steps<L>,
) -> Result<Option<ObjRow>, Failed>
    requires sound { IsSoundOn D.Disk volume.old disk.old }
    requires backed { ForSome (D.seen disk.old) (λ image. AllBacked (now_of volume.old image) cache.old) }
    ensures row { IfOk result (λ found. ForSome (D.seen disk.old) (λ image. found ≡ searching.allowed_row (now_of volume.old image) thread address right)) }
    ensures covers { IfOk result (λ found. IfSome found (λ row. find (λ row. covers row address) (objects_in volume.new) ≡ Some row)) }
    ensures own { IfOk result (λ found. IfSome found (λ row. find (λ other. other.base == row.base) (objects_in volume.new) ≡ Some row)) }
    ensures kept { IfOk result (λ found. IfSome found IsObjectRow) }
    ensures finds { Finds D.Disk (record { thread = thread; address = address; right = right }) result volume.old volume.new cache.old cache.new disk.old disk.new steps.old steps.new }
    ensures known { rows_know (objects_in volume.old) cache.old thread address right ≡ true → (disk.new ≡ disk.old) × (steps.new ≡ steps.old) }
{
    backed_seats_are_allowed();
    let Some(object) = volume.covering(address) else {
        return Ok(None);
    };
    if cache.hit(thread, object.base(), right) {
        return Ok(Some(object));
    }
    let sought = Sought {
        object,
        right,
        period: volume.globals().period(),
    };
    match search(volume, cache, disk, thread, &sought, steps)? {
        Some(_) => Ok(Some(sought.object)),
        None => Ok(None),
    }
}

/// The base of the object that has an address, if a thread may reach it with the right; None if it may not, or no such
/// thread lives. What is read and kept is as by [`reach`]. [`Failed`] comes only if a call of the disk failed. The state
/// stays, and so does each seat if no base is given.
pub fn validate<D: Disk, L: Ledger>(
    volume: &mut Volume,
    cache: &mut VCache,
    disk: &mut D,
    thread: u64,
    address: u64,
    right: Right,
    steps: &mut Steps<L>,
) -> Result<Option<u64>, Failed>
    requires sound { IsSoundOn D.Disk volume.old disk.old }
    requires backed { ForSome (D.seen disk.old) (λ image. AllBacked (now_of volume.old image) cache.old) }
    ensures base { IfOk result (λ base. ForSome (D.seen disk.old) (λ image. base ≡ (if allowed (now_of volume.old image) thread address right then option_map (λ object. object.row.base) (at (now_of volume.old image).objects address) else None))) }
    ensures row { IfOk result (λ base. ForSome (D.seen disk.old) (λ image. MatchOption base (None ≡ searching.allowed_row (now_of volume.old image) thread address right) (λ base. searching.IsAllowedIn (now_of volume.old image) thread address right base))) }
    ensures at { IfOk result (λ base. IfSome base (λ base. IsBaseAt volume.new address base)) }
    ensures finds { Finds D.Disk (record { thread = thread; address = address; right = right }) result volume.old volume.new cache.old cache.new disk.old disk.new steps.old steps.new }
    ensures known { rows_know (objects_in volume.old) cache.old thread address right ≡ true → (disk.new ≡ disk.old) × (steps.new ≡ steps.old) }
{
    backed_seats_are_allowed();
    if let Some(base) = kept_base(volume, cache, thread, address, right) {
        return Ok(Some(base));
    }
    search_base(volume, cache, disk, thread, address, right, steps)
}

// The base of the object that has an address, if the right on it is kept. No row is handed up for it.
#[inline(always)]
fn kept_base(
    volume: &mut Volume,
    cache: &VCache,
    thread: u64,
    address: u64,
    right: Right,
) -> Option<u64>
    ensures at { IfSome result (λ base. IsBaseAt volume.old address base) }
    ensures same { volume.new ≡ volume.old }
    ensures kept { IfSome result (λ base. is_kept cache.now (record { thread = thread; base = base; right = right }) ≡ true) }
    ensures missed { result ≡ None → rows_know (objects_in volume.old) cache.now thread address right ≡ false }
{
    let base = volume.base_at(address)?;
    if cache.hit(thread, base, right) {
        Some(base)
    } else {
        None
    }
}

// The base of the object that has an address, by a search, if the right on it is not kept: what `validate` says of it. It is not
// inlined, so that a kept right doesn't pay for the row that it needs.
#[inline(never)]
fn search_base<D: Disk, L: Ledger>(
    volume: &mut Volume,
    cache: &mut VCache,
    disk: &mut D,
    thread: u64,
    address: u64,
    right: Right,
    steps: &mut Steps<L>,
) -> Result<Option<u64>, Failed>
    requires sound { IsSoundOn D.Disk volume.old disk.old }
    requires backed { ForSome (D.seen disk.old) (λ image. AllBacked (now_of volume.old image) cache.old) }
    requires missed { rows_know (objects_in volume.old) cache.old thread address right ≡ false }
    ensures base { IfOk result (λ base. ForSome (D.seen disk.old) (λ image. base ≡ (if allowed (now_of volume.old image) thread address right then option_map (λ object. object.row.base) (at (now_of volume.old image).objects address) else None))) }
    ensures row { IfOk result (λ base. ForSome (D.seen disk.old) (λ image. MatchOption base (None ≡ searching.allowed_row (now_of volume.old image) thread address right) (λ base. searching.IsAllowedIn (now_of volume.old image) thread address right base))) }
    ensures at { IfOk result (λ base. IfSome base (λ base. IsBaseAt volume.new address base)) }
    ensures finds { Finds D.Disk (record { thread = thread; address = address; right = right }) result volume.old volume.new cache.old cache.new disk.old disk.new steps.old steps.new }
{
    let Some(object) = volume.covering(address) else {
        return Ok(None);
    };
    let sought = Sought {
        object,
        right,
        period: volume.globals().period(),
    };
    match search(volume, cache, disk, thread, &sought, steps)? {
        Some(_) => Ok(Some(sought.object.base())),
        None => Ok(None),
    }
}

// The capability list by which a thread reaches the object that is sought, if the right is not kept: a search through the thread's
// capability lists. A right that is found is kept, in its own seat. The clauses speak of each address that the object has.
fn search<D: Disk, L: Ledger>(
    volume: &mut Volume,
    cache: &mut VCache,
    disk: &mut D,
    thread: u64,
    sought: &Sought,
    steps: &mut Steps<L>,
) -> Result<Option<u64>, Failed>
    requires sound { IsSoundOn D.Disk volume.old disk.old }
    requires backed { ForSome (D.seen disk.old) (λ image. AllBacked (now_of volume.old image) cache.old) }
    requires sought { (address : ℕ) × searching.IsSoughtAt volume.old address sought.now }
    requires missed { is_kept cache.old (record { thread = thread; base = sought.now.object.base; right = sought.now.right }) ≡ false }
    ensures row { IfOk result (λ found. ForSome (D.seen disk.old) (λ image. (address : ℕ) → searching.IsSoughtAt volume.old address sought.now → (if is_some found then Some sought.now.object else None) ≡ searching.allowed_row (now_of volume.old image) thread address sought.now.right)) }
    ensures reads { Reads D.Disk volume.old volume.new disk.old disk.new steps.old steps.new }
    ensures finds { (address : ℕ) → searching.IsSoughtAt volume.old address sought.now → Finds D.Disk (record { thread = thread; address = address; right = sought.now.right }) result volume.old volume.new cache.old cache.new disk.old disk.new steps.old steps.new }
{
    backed_seats_are_allowed();
    match list_of(volume, disk, thread, sought, steps)? {
        Some(via) => {
            cache.fill(thread, sought.object.base(), sought.right, via);
            Ok(Some(via))
        }
        None => Ok(None),
    }
}
