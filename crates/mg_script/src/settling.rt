// What a script sees of a reply.
ghost use Rattle.std.specs.Prelude.{◌≡◌, ◌∷◌, [], ◌+◌, ◌≤◌, length};
ghost use Rattle.mg_model.specs.Script.{with_register};
ghost use Rattle.mg_model.specs.Turn.{with_registers};
ghost use Rattle.mg_model.specs.Abbreviations.{refusal_number};
ghost use Rattle.mg_script.specs.Actions.{settled};

use mg_model::{Refusal, Reply, ThrRow};

/// Register 0 gets the number of a refusal, 1 to 22. The other registers stay.
pub(crate) fn refuse(row: &mut ThrRow, word: Refusal)
    ensures { row.new ≡ with_register row.old 0 (refusal_number word) }
{
    row.set_register(0, word.number());
}

/// Stores the reply to a call that the registers spelled. Register 0 gets a refusal's number, or 0. After a 0 the registers from 1 on
/// get the reply's values in order. The others stay. Slots and states of threads are no values.
pub fn settle(row: &mut ThrRow, reply: &Reply)
    ensures { row.new ≡ settled reply.now row.old }
{
    match *reply {
        Reply::No(word) => refuse(row, word),
        Reply::Done | Reply::Slots { .. } | Reply::Turned(_) | Reply::Ran(..) => put(row, &[0]),
        Reply::Value(word) => put(row, &[0, word]),
        Reply::Count(count) => put(row, &[0, count]),
        Reply::Made(base, password) => put(row, &[0, base, password]),
        Reply::Opened(account, password) => put(row, &[0, account, password]),
        Reply::About {
            base,
            pages,
            account,
            passwords,
            entries,
            ext,
        } => put(row, &[0, base, pages, account, passwords, entries, ext]),
        Reply::Funds(balance, owed, pages) => put(row, &[0, balance, owed, pages]),
        Reply::Collected(period, rate, paid) => put(row, &[0, period, rate, paid]),
    }
}

/// Stores these values in the registers from 0 on.
fn put(row: &mut ThrRow, values: &[u64])
    requires { length values.now ≤ 8 }
    ensures { row.new ≡ with_registers row.old 0 values.now }
{
    for i in 0..values.len() {
        row.set_register(i, values[i]);
    }
}
