// How many replies there were of each kind.
ghost use Rattle.std.specs.Prelude.{◌≡◌, ◌+◌, ◌-◌, ◌^◌, ◌<◌, ◌≤◌, ◌++◌, ◌∷◌, [], List, length};
ghost use Rattle.arrayvec.specs.ArrayVec.{array_vec_len};
ghost use Rattle.mg_model.specs.declared.replies.Reply.{Reply};
ghost use Rattle.mg_gen.specs.Tallies.{count_line, row_of, tally_of, tally_text};

use arrayvec::ArrayVec;
use mg_model::{Refusal, Reply};
use mg_text::refusal_word;
use std::marker::Model;

/// How many words a reply may begin with: `ok`, and a refusal each.
const ROWS: usize = 23;

/// The refusals, in the order of their numbers.
const REFUSALS: [Refusal; 22] = [
    Refusal::Syntax,
    Refusal::NoThread,
    Refusal::Align,
    Refusal::Denied,
    Refusal::Size,
    Refusal::Account,
    Refusal::Debt,
    Refusal::Limit,
    Refusal::Full,
    Refusal::NoPassword,
    Refusal::Range,
    Refusal::SlotFull,
    Refusal::NoSlot,
    Refusal::NoEntry,
    Refusal::Depth,
    Refusal::NoFrame,
    Refusal::NotYours,
    Refusal::NotReady,
    Refusal::Idle,
    Refusal::Credit,
    Refusal::Calendar,
    Refusal::Past,
];

/// How many replies were ok, and how many were refused with each word. A count at a u64's last value stays there.
#[derive(Drop)]
pub struct Tally {
    counts: [u64; ROWS],
}

impl Model for Tally {
    ghost use Rattle.std.specs.Prelude.{ℕ, List};

    ghost Value = { List ℕ };

    ghost view = { λ tally. tally.counts };
}

impl Tally {
    /// The counts of no replies.
    #[tactic(auto, unfolding(crate::specs::Tallies::tally_of))]
    pub fn new() -> Self
        ensures { result ≡ tally_of [] }
    {
        Tally { counts: [0; ROWS] }
    }

    /// Counts one reply more. The counts are exact for fewer than `2^64 - 1` replies.
    pub fn count(&mut self, reply: &Reply)
        ensures { (replies : List Reply) → self.old ≡ tally_of replies → length replies < 2 ^ 64 - 1 → self.new ≡ tally_of (replies ++ reply.now ∷ []) }
    {
        let row = row(reply);
        self.counts[row] = self.counts[row].saturating_add(1);
    }

    /// Writes the counts into an empty buffer, a line each: `ok` and its count, and then each refusal's word and its
    /// count.
    pub fn print(&self, out: &mut ArrayVec<u8, 1024>)
        requires empty { out.old.items ≡ [] }
        ensures { out.new.items ≡ tally_text self.now }
    {
        push_counts(&self.counts, out);
    }
}

/// The row in which a reply is counted: 0 with ok, else its refusal's number.
fn row(reply: &Reply) -> usize
    ensures value { result ≡ row_of reply.now }
    ensures within { result < 23 }
{
    match reply {
        Reply::No(refusal) => refusal.number() as usize,
        _ => 0,
    }
}

/// The lines of all rows.
fn push_counts(counts: &[u64; ROWS], out: &mut ArrayVec<u8, 1024>)
    requires empty { out.old.items ≡ [] }
    ensures { out.new.items ≡ tally_text counts.now }
{
    push_row(b"ok", counts[0], out);
    for i in 0..22 {
        push_row(refusal_word(REFUSALS[i]), counts[i + 1], out);
    }
}

/// The line of a word and its count.
fn push_row(word: &[u8], count: u64, out: &mut ArrayVec<u8, 1024>)
    requires at_most_10_bytes { length word.now ≤ 10 }
    requires at_most_992_bytes { array_vec_len out.old ≤ 992 }
    ensures text { out.new.items ≡ out.old.items ++ count_line word.now count }
    ensures short { array_vec_len out.new ≤ array_vec_len out.old + 32 }
{
    let mut digits = itoa::Buffer::new();
    let _ = out.try_extend_from_slice(word);
    out.push(b' ');
    let _ = out.try_extend_from_slice(digits.format(count).as_bytes());
    out.push(b'\n');
}
