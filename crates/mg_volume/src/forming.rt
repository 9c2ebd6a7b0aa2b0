// A volume that was opened or committed is well formed. What is here does nothing when it runs.
ghost use Rattle.std.specs.Prelude.{List, ◌≡◌, ℕ, All, true};
ghost use Rattle.mg_disk.specs.Disk.{AreBytes};
ghost use Rattle.mg_model.specs.Ranges.{IsWord};
ghost use Rattle.mg_model.specs.WellFormed.{IsWellFormed};
ghost use Rattle.mg_model.specs.declared.accounts.AccRow.{AccRow};
ghost use Rattle.mg_volume.specs.Meaning.{IsSpelledBy, is_sound, now_of, staged_of};

use crate::volume::Volume;
use mg_model::AccRow;

// A password has 64 bits.
fn has_word(row: &AccRow)
    ensures { IsWord row.now.password }
{
    let _password = row.password;
}

// The passwords of all accounts have 64 bits.
fn accounts_keep_rules(accounts: &[AccRow])
    ensures { All (λ (row : AccRow). IsWord row.password) accounts.now }
{
    for row in accounts {
        has_word(row);
    }
}

#[tactic(auto, unfolding(crate::specs::Meaning::settings_in, crate::specs::Meaning::counters_in, crate::specs::Meaning::objects_in, crate::specs::Meaning::accounts_in, crate::specs::Meaning::threads_in, crate::specs::Meaning::now_of, crate::specs::Meaning::staged_of, crate::specs::Meaning::is_live, crate::specs::Meaning::total_of, crate::specs::Meaning::words_in))]
impl Volume {
    /// With nothing staged the state is well formed, if it is sound: of each image that this volume fits. It needs
    /// an image of bytes, as every disk gives. This looks at no disk and changes nothing; a layer above calls it when it
    /// has to know, after an opening and a commit.
    pub fn is_formed(&self)
        ensures { (image : List (List ℕ)) → AreBytes image → IsSpelledBy self.now image → staged_of self.now ≡ 0 → is_sound (now_of self.now image) ≡ true → IsWellFormed (now_of self.now image) }
    {
        self.params.keep_rules();
        accounts_keep_rules(self.bank.rows());
        self.threads.keep_rules();
        let _draws = self.globals.draws();
    }
}
