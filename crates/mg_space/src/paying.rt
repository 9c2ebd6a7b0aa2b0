// For how many pages the payer of an object pays.
ghost use Rattle.std.specs.Prelude.{◌≡◌, ◌≤◌, ◌<◌, ◌+◌, ◌^◌, ℕ};
ghost use Rattle.mg_bank.specs.Bank.{pages_at};
ghost use Rattle.mg_model.specs.Ranges.{IsObjectRow};
ghost use Rattle.mg_space.specs.Space.{ArePaid, share};

use mg_bank::Bank;
use mg_model::ObjRow;
use mg_objects::Objects;

/// The payer of an object pays for its pages.
pub(crate) fn add(bank: &mut Bank, row: &ObjRow)
    requires { pages_at bank.old.pages row.now.account + row.now.pages < 2 ^ 64 }
    ensures pages { (n : ℕ) → pages_at bank.new.pages n ≡ pages_at bank.old.pages n + share row.now n }
    ensures accounts { bank.new.accounts ≡ bank.old.accounts }
    ensures kept { IsObjectRow row.now }
{
    let total = bank.pages(row.account);
    bank.set_pages(row.account, total + row.pages);
}

/// The payer of an object does not pay for its pages any more.
pub(crate) fn subtract(bank: &mut Bank, row: &ObjRow)
    requires { row.now.pages ≤ pages_at bank.old.pages row.now.account }
    ensures pages { (n : ℕ) → pages_at bank.old.pages n ≡ pages_at bank.new.pages n + share row.now n }
    ensures accounts { bank.new.accounts ≡ bank.old.accounts }
{
    let total = bank.pages(row.account);
    bank.set_pages(row.account, total - row.pages);
}

/// Sets in a bank, which has none, for how many pages of these objects each account pays.
pub(crate) fn bill(bank: &mut Bank, objects: &Objects)
    requires { (n : ℕ) → pages_at bank.old.pages n ≡ 0 }
    ensures paid { ArePaid bank.new.pages objects.now }
    ensures accounts { bank.new.accounts ≡ bank.old.accounts }
{
    for i in 0..objects.len() {
        add(bank, objects.nth_ref(i));
    }
}
