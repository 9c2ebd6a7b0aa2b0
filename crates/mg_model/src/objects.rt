// What is known of an object.
ghost use Rattle.std.specs.Prelude.{◌≡◌, ◌≢◌, ◌≤◌, ◌<◌, ◌+◌, ◌++◌, ◌∷◌, [], length, not, filter, false, Option};
ghost use Rattle.std.specs.List.{list_any};
ghost use Rattle.std.specs.Option.{IfSome};
ghost use Rattle.mg_model.specs.Access.{covers, holds};
ghost use Rattle.mg_model.specs.ObjectCalls.{is_entry, has_password};
ghost use Rattle.mg_model.specs.Ranges.{IsEntryOf, IsObjectRow, IsPlace};

use crate::few::{Few, Filler};
use crate::limits::{ENTRY_POINT_LIMIT, PAGE_SIZE, PASSWORD_LIMIT};
use crate::rights::{Right, Rights};
use crate::slots::{Pw, Slot};
use std::marker::Model;

impl Filler for Pw {
    ghost blank = { record { password = 0; rights = 63; until = 1 } };

    fn blank() -> Pw {
        Pw::new(0, Rights::all(), 1)
    }
}

impl Filler for u64 {
    ghost blank = { 0 };

    fn blank() -> u64 {
        0
    }
}

/// What is known of an object besides its words: its base and pages, the account that pays for it (1 to 1024), up to 32
/// password rows, up to 16 entries, and its extension, whose base is not 0. Each entry is the address of a word of the
/// object, and none comes twice.
#[derive(Clone, Copy, PartialEq, Eq)]
pub struct ObjRow {
    /// The address of its first byte.
    pub base: u64,
    /// How many pages it has, from 1 to 1024.
    pub pages: u64,
    /// The number of the account that pays for it, from 1 to 1024.
    pub account: u64,
    /// Its password rows, in the order in which they were added.
    pub passwords: Few<Pw, PASSWORD_LIMIT>,
    /// Its entries, in the order in which they were added.
    pub entries: Few<u64, ENTRY_POINT_LIMIT>,
    /// Its extension, whose base is not 0.
    pub ext: Option<Slot>,
}

impl Model for ObjRow {
    ghost use Rattle.mg_model.specs.State.{ObjectRow};
    ghost use Rattle.mg_model.specs.Ranges.{IsObjectRow};

    ghost Value = { ObjectRow };

    ghost view = { λ row. record {
      base = row.base;
      pages = row.pages;
      account = row.account;
      passwords = row.passwords;
      entries = row.entries;
      extension = row.ext;
    } };

    ghost invariant = { λ row. IsObjectRow (record {
      base = row.base;
      pages = row.pages;
      account = row.account;
      passwords = row.passwords;
      entries = row.entries;
      extension = row.ext;
    }) };

    ghost inverse = { λ row. record {
      base = row.base;
      pages = row.pages;
      account = row.account;
      passwords = row.passwords;
      entries = row.entries;
      ext = row.extension;
    } };
}

impl ObjRow {
    /// An object of `pages` pages (1 to 1024) at this base (a multiple of 4096), all of them from page `2^20` on and below
    /// page `2^40`. This account (1 to 1024) pays for it. It has no passwords, entries or extension.
    pub fn new(base: u64, pages: u64, account: u64) -> ObjRow
        requires place { IsPlace base pages }
        requires account_some { 1 ≤ account }
        requires account_few { account ≤ 1024 }
        ensures { result ≡ record { base = base; pages = pages; account = account; passwords = []; entries = []; extension = None } }
    {
        ObjRow {
            base,
            pages,
            account,
            passwords: Few::new(),
            entries: Few::new(),
            ext: None,
        }
    }

    /// The address of its first byte.
    pub fn base(&self) -> u64
        ensures value { result ≡ self.now.base }
        ensures kept { IsObjectRow self.now }
    {
        self.base
    }

    /// How many pages it has.
    pub fn pages(&self) -> u64
        ensures { result ≡ self.now.pages }
    {
        self.pages
    }

    /// The number of the account that pays for it.
    pub fn account(&self) -> u64
        ensures { result ≡ self.now.account }
    {
        self.account
    }

    /// Its extension.
    pub fn ext(&self) -> Option<Slot>
        ensures { result ≡ self.now.extension }
    {
        self.ext
    }

    /// Its password rows, in the order in which they were added.
    pub fn passwords(&self) -> &[Pw]
        ensures { result.now ≡ self.now.passwords }
    {
        self.passwords.as_slice()
    }

    /// Its entries, in the order in which they were added.
    pub fn entries(&self) -> &[u64]
        ensures { result.now ≡ self.now.entries }
    {
        self.entries.as_slice()
    }

    /// Whether this address lies in it.
    pub fn covers(&self, address: u64) -> bool
        ensures { result ≡ covers self.now address }
    {
        self.base <= address && address < self.base + PAGE_SIZE * self.pages
    }

    /// Whether it holds this password with this right at this period.
    pub fn holds(&self, password: u64, right: Right, period: u64) -> bool
        ensures { result ≡ holds period self.now password right }
    {
        self.passwords
            .as_slice()
            .iter()
            .any(|pw| pw.gives(password, right, period))
    }

    /// Whether a row of it has this password, current or not.
    pub fn has_password(&self, password: u64) -> bool
        ensures { result ≡ list_any (λ pw. has_password password pw) self.now.passwords }
    {
        self.passwords
            .as_slice()
            .iter()
            .any(|pw| pw.password() == password)
    }

    /// Whether this address is an entry of it.
    pub fn is_entry(&self, address: u64) -> bool
        ensures { result ≡ is_entry self.now address }
    {
        self.entries
            .as_slice()
            .iter()
            .any(|entry| *entry == address)
    }

    /// One password row more, the last.
    pub fn add_password(&mut self, pw: Pw)
        requires fewer_than_32_passwords { length self.old.passwords < 32 }
        ensures { self.new ≡ record self.old { passwords = self.old.passwords ++ pw ∷ [] } }
    {
        self.passwords
            .add(Pw::new(pw.password, pw.rights, pw.until));
    }

    /// Removes every row with this password.
    pub fn remove_passwords(&mut self, password: u64)
        ensures { self.new ≡ record self.old { passwords = filter (λ pw. not (has_password password pw)) self.old.passwords } }
    {
        self.passwords = without(self.passwords.as_slice(), password);
    }

    /// One entry more, the last: the address of a word of the object that is no entry yet.
    pub fn add_entry(&mut self, address: u64)
        requires fewer_than_16_entries { length self.old.entries < 16 }
        requires place { IsEntryOf self.old.base self.old.pages address }
        requires once { is_entry self.old address ≡ false }
        ensures { self.new ≡ record self.old { entries = self.old.entries ++ address ∷ [] } }
    {
        self.entries.add(address);
    }

    /// Another extension, or none. One whose base is 0 is no extension.
    pub fn set_ext(&mut self, ext: Option<Slot>)
        requires { IfSome ext (λ slot. slot.base ≢ 0) }
        ensures { self.new ≡ record self.old { extension = ext } }
    {
        self.ext = ext;
    }

    /// Another account that pays for it, from 1 to 1024.
    pub fn set_account(&mut self, account: u64)
        requires n_at_least_1 { 1 ≤ account }
        requires n_at_most_1024 { account ≤ 1024 }
        ensures { self.new ≡ record self.old { account = account } }
    {
        self.account = account;
    }
}

// The rows that do not have this password.
fn without(passwords: &[Pw], password: u64) -> Few<Pw, PASSWORD_LIMIT>
    requires { length passwords.now ≤ 32 }
    ensures { result ≡ filter (λ pw. not (has_password password pw)) passwords.now }
{
    let mut left = Few::new();
    for pw in passwords {
        if pw.password() != password {
            left.add(*pw);
        }
    }
    left
}
