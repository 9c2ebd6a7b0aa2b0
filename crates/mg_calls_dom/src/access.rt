// The calls on words.
ghost use Rattle.std.specs.Prelude.{List, ◌≡◌, ◌≤◌, ◌<◌, ◌+◌, ◌-◌, ◌/◌, ◌%◌, ℕ, true, nat_lt, if◌then◌else◌, IfOk, MatchResult, None, OnErr, OnOk, Some};
ghost use Rattle.std.specs.Option.{ForSome};
ghost use Rattle.mg_access.specs.Finding.{FindsWord};
ghost use Rattle.mg_access.specs.Searching.{IsAllowedIn, access_refusal};
ghost use Rattle.mg_access.specs.Served.{CallReads, CallServes, of_call};
ghost use Rattle.mg_calls_dom.specs.Fetching.{Fetches, fetch_limit};
ghost use Rattle.mg_disk.specs.Stops.{CountRose};
ghost use Rattle.mg_model.specs.Access.{allowed};
ghost use Rattle.mg_model.specs.Backed.{by_given};
ghost use Rattle.mg_model.specs.Limits.{page_size};
ghost use Rattle.mg_model.specs.Objects.{word_at};
ghost use Rattle.mg_vcache.specs.Seats.{AllBacked, is_kept, without};
ghost use Rattle.mg_volume.specs.Calls.{IsSoundOn, Reads};
ghost use Rattle.mg_volume.specs.Meaning.{has_page, now_of, staged_of};

use mg_access::validate;
use mg_disk::Disk;
use mg_faults::Failed;
use mg_laws::{accesses_keep_the_rules_of_a_line, steps_keep_backing, stores_end_one_list};
use mg_model::limits::PAGE_SIZE;
use mg_model::{Call, Line, Refusal, Reply, Right, Steps};
use mg_vcache::VCache;
use mg_volume::Volume;
use std::sync::ledger::Ledger;

/// The bytes of a word.
const WORD: u64 = 8;

/// The word at an address. The refusals come in this order: an address that is no multiple of 8, no R, also if no such
/// thread lives. [`Failed`] comes only if a call of the disk failed. The state stays.
pub fn load<D: Disk, L: Ledger>(
    volume: &mut Volume,
    cache: &mut VCache,
    disk: &mut D,
    thread: u64,
    address: u64,
    steps: &mut Steps<L>,
) -> Result<Reply, Failed>
    requires sound { IsSoundOn D.Disk volume.old disk.old }
    requires backed { ForSome (D.seen disk.old) (λ image. AllBacked (now_of volume.old image) cache.old) }
    ensures { CallReads D.Disk (of_call thread (Call.Load address)) result volume.old volume.new cache.old cache.new disk.old disk.new steps.old steps.new }
{
    match word_base(volume, cache, disk, thread, address, Right::R, steps)? {
        Ok(_) => Ok(Reply::Value(volume.word(disk, page_of(address), index_of(address), steps)?)),
        Err(word) => Ok(Reply::No(word)),
    }
}

/// Another word at an address. The refusals come in the order of `load`, with W in place of R. A store to the first page of an
/// object drops what is kept of the rights that its list gave. [`Failed`] comes only if a call of the disk failed, and the
/// state then stays, as after a refusal.
pub fn store<D: Disk, L: Ledger>(
    volume: &mut Volume,
    cache: &mut VCache,
    disk: &mut D,
    thread: u64,
    address: u64,
    value: u64,
    steps: &mut Steps<L>,
) -> Result<Reply, Failed>
    requires sound { IsSoundOn D.Disk volume.old disk.old }
    requires at_most_158_staged { staged_of volume.old ≤ 158 }
    requires backed { ForSome (D.seen disk.old) (λ image. AllBacked (now_of volume.old image) cache.old) }
    ensures { CallServes 2 D.Disk (of_call thread (Call.Store address value)) result volume.old volume.new cache.old cache.new disk.old disk.new steps.old steps.new }
{
    steps_keep_backing();
    stores_end_one_list();
    match word_base(volume, cache, disk, thread, address, Right::W, steps)? {
        Ok(base) => {
            volume.set_word(disk, page_of(address), index_of(address), value, steps)?;
            drop_written(cache, base, address);
            Ok(Reply::Done)
        }
        Err(word) => Ok(Reply::No(word)),
    }
}

/// The word at an address, a multiple of 8, with X; None if the access is not allowed, or no such thread lives.
/// [`Failed`] comes only if a call of the disk failed. The state stays.
pub fn fetch<D: Disk, L: Ledger>(
    volume: &mut Volume,
    cache: &mut VCache,
    disk: &mut D,
    thread: u64,
    address: u64,
    steps: &mut Steps<L>,
) -> Result<Option<u64>, Failed>
    requires sound { IsSoundOn D.Disk volume.old disk.old }
    requires backed { ForSome (D.seen disk.old) (λ image. AllBacked (now_of volume.old image) cache.old) }
    requires aligned { address % 8 ≡ 0 }
    ensures word { IfOk result (λ word. ForSome (D.seen disk.old) (λ image. word ≡ (if allowed (now_of volume.old image) thread address Right.X then Some (word_at (now_of volume.old image).objects address) else None))) }
    ensures backed { ForSome (D.seen disk.old) (λ image. AllBacked (now_of volume.new image) cache.new) }
    ensures keeps { OnOk result (ForSome (D.seen disk.old) (λ image. Fetches (now_of volume.old image) (record { thread = thread; address = address; right = Right.X }) (λ key. is_kept cache.old key) (λ key. is_kept cache.new key) steps.old steps.new)) }
    ensures limit { ForSome (D.seen disk.old) (λ image. steps.new ≤ steps.old + fetch_limit (λ key. is_kept cache.old key) (now_of volume.old image) (record { thread = thread; address = address; right = Right.X })) }
    ensures reads { Reads D.Disk volume.old volume.new disk.old disk.new steps.old steps.new }
    ensures cause { OnErr result (CountRose D.Disk disk.old disk.new) }
{
    match validate(volume, cache, disk, thread, address, Right::X, steps)? {
        Some(_) => Ok(Some(volume.word(disk, page_of(address), index_of(address), steps)?)),
        None => Ok(None),
    }
}

/// As `word_object` of `mg_access`, but returns the base of the object alone.
fn word_base<D: Disk, L: Ledger>(
    volume: &mut Volume,
    cache: &mut VCache,
    disk: &mut D,
    thread: u64,
    address: u64,
    right: Right,
    steps: &mut Steps<L>,
) -> Result<Result<u64, Refusal>, Failed>
    requires sound { IsSoundOn D.Disk volume.old disk.old }
    requires backed { ForSome (D.seen disk.old) (λ image. AllBacked (now_of volume.old image) cache.old) }
    ensures refusal { IfOk result (λ base. ForSome (D.seen disk.old) (λ image. MatchResult base (λ _. access_refusal (now_of volume.old image) thread address right ≡ None) (λ word. access_refusal (now_of volume.old image) thread address right ≡ Some word))) }
    ensures row { IfOk result (λ answer. IfOk answer (λ base. ForSome (D.seen disk.old) (λ image. IsAllowedIn (now_of volume.old image) thread address right base))) }
    ensures place { IfOk result (λ answer. IfOk answer (λ base. (has_page volume.new (address / page_size) ≡ true) × (base ≤ address) × (address % 8 ≡ 0))) }
    ensures finds { FindsWord D.Disk (record { thread = thread; address = address; right = right }) result volume.old volume.new cache.old cache.new disk.old disk.new steps.old steps.new }
{
    accesses_keep_the_rules_of_a_line();
    if address % WORD != 0 {
        return Ok(Err(Refusal::Align));
    }
    match validate(volume, cache, disk, thread, address, right, steps)? {
        Some(base) => Ok(Ok(base)),
        None => Ok(Err(Refusal::Denied)),
    }
}

// The page of an address.
fn page_of(address: u64) -> u64
    ensures { result ≡ address / page_size }
{
    address / PAGE_SIZE
}

// The place of a word in its page.
fn index_of(address: u64) -> u64
    ensures { result ≡ address % page_size / 8 }
{
    address % PAGE_SIZE / WORD
}

// A word at this address of the object with this base was written: if it lies in the first page, what the list there gave is
// dropped.
fn drop_written(cache: &mut VCache, base: u64, address: u64)
    requires { base ≤ address }
    ensures { cache.new ≡ (if nat_lt address (base + page_size) then without (by_given base) cache.old else cache.old) }
{
    if address - base < PAGE_SIZE {
        cache.drop_given(base);
    }
}
