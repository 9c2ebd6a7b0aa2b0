// Objects are made.
ghost use Rattle.std.specs.Prelude.{List, ◌≡◌, ◌≤◌, ◌<◌, ◌+◌, ◌||◌, ℕ, nat_le, nat_lt, true, length, sum_by, MatchOption};
ghost use Rattle.mg_calls_obj.specs.Creating.{IsRoom, creating_refusal, used_in};
ghost use Rattle.mg_model.specs.Bank.{opens, owed_by};
ghost use Rattle.mg_model.specs.Limits.{draw_limit, object_limit};
ghost use Rattle.mg_model.specs.ObjectCalls as calls;
ghost use Rattle.mg_model.specs.Objects.{new_object};
ghost use Rattle.mg_model.specs.Ranges.{IsPlace};
ghost use Rattle.mg_volume.specs.Calls.{Answers, CallStages};
ghost use Rattle.mg_volume.specs.Meaning.{accounts_in, counters_in, objects_in, settings_in, staged_of};

use mg_model::limits::{DRAW_LIMIT, OBJECT_LIMIT, OBJECT_PAGE_LIMIT, PAGE_SIZE};
use mg_model::{ObjRow, Pw, Refusal, Reply, Rights};
use mg_volume::Volume;

/// A new object of `pages` pages, paid by an account that this password opens. It takes the lowest pages that meet no object,
/// reads as zeros, and holds the next password that is drawn, with all rights and without an end. The refusals come in this
/// order: no page, or more than 1024 (Size); no such account, or another password than its own (Account); an account that owes
/// something (Debt); 4,096 objects, or no password left to draw (Limit); more pages in use than there are frames (Full). No
/// right that was found ends.
pub fn create(volume: &mut Volume, pages: u64, account: u64, password: u64) -> Reply
    requires at_most_158_staged { staged_of volume.old ≤ 158 }
    ensures { CallStages (Answers (λ state. calls.create state pages account password)) 2 volume.old volume.new result }
{
    match refusal(volume, pages, account, password) {
        Some(word) => Reply::No(word),
        None => {
            let base = PAGE_SIZE * volume.first(pages);
            let fresh = volume.next_password();
            volume.insert(first_row(base, pages, account, fresh));
            Reply::Made(base, fresh)
        }
    }
}

// Why no object of `pages` pages may be made, or what holds if one may.
fn refusal(volume: &Volume, pages: u64, account: u64, password: u64) -> Option<Refusal>
    ensures word { result ≡ creating_refusal volume.now pages account password }
    ensures is_room { MatchOption result (IsRoom volume.now pages account) (λ _. Unit {0}) }
{
    if pages == 0 || pages > OBJECT_PAGE_LIMIT {
        return Some(Refusal::Size);
    }
    let bank = volume.bank();
    if !bank.opens(account, password) {
        return Some(Refusal::Account);
    }
    if bank.owed_by(account) > 0 {
        return Some(Refusal::Debt);
    }
    if is_spent(volume) {
        return Some(Refusal::Limit);
    }
    if is_over(volume, pages) {
        return Some(Refusal::Full);
    }
    None
}

// Whether there may be no more objects, or no password is left.
fn is_spent(volume: &Volume) -> bool
    ensures { result ≡ (nat_le object_limit (length (objects_in volume.now)) || nat_le draw_limit (counters_in volume.now).draws) }
{
    volume.object_count() >= OBJECT_LIMIT as u64 || volume.globals().draws() >= DRAW_LIMIT
}

// Whether `pages` more pages would be more than there are frames.
fn is_over(volume: &Volume, pages: u64) -> bool
    requires { pages ≤ 1024 }
    ensures { result ≡ nat_lt (settings_in volume.now).frames (used_in volume.now + pages) }
{
    let frames = volume.params().frames();
    frames < volume.used() + pages
}

// The row of a new object, with its first password.
fn first_row(base: u64, pages: u64, account: u64, password: u64) -> ObjRow
    requires place { IsPlace base pages }
    requires account_at_least_1 { 1 ≤ account }
    requires account_at_most_1024 { account ≤ 1024 }
    ensures { result ≡ (new_object base pages account password).row }
{
    let mut row = ObjRow::new(base, pages, account);
    row.add_password(Pw::new(password, Rights::all(), Pw::NEVER));
    row
}
