// The passwords of an object.
ghost use Rattle.std.specs.Prelude.{◌≡◌, ◌++◌, ◌∷◌, [], filter, if◌then◌else◌, length, nat_le, not};
ghost use Rattle.std.specs.List.{list_any};
ghost use Rattle.mg_model.specs.Access.{holds as held};
ghost use Rattle.mg_model.specs.Limits.{password_limit};
ghost use Rattle.mg_model.specs.ObjectCalls.{has_password};

use mg_model::limits::PASSWORD_LIMIT;
use mg_model::{ObjRow, Pw, Refusal, Right};

/// Whether an object holds this password with this right at this period: a row of it has the password and the right, and an
/// until above the period.
pub fn holds(row: &ObjRow, password: u64, right: Right, period: u64) -> bool
    ensures { result ≡ held period row.now password right }
{
    row.holds(password, right, period)
}

/// One password row more, the last. An object that has 32 is refused (Limit), and stays.
pub fn add(row: &mut ObjRow, password: Pw) -> Result<(), Refusal>
    ensures refused { result ≡ (if nat_le password_limit (length row.old.passwords) then Err Refusal.Limit else Ok tt) }
    ensures list { row.new ≡ (if nat_le password_limit (length row.old.passwords) then row.old else record row.old { passwords = row.old.passwords ++ password ∷ [] }) }
{
    if row.passwords().len() >= PASSWORD_LIMIT {
        return Err(Refusal::Limit);
    }
    row.add_password(password);
    Ok(())
}

/// Every row with this password goes, whether it is current or not. An object without one is refused (NoPassword), and stays.
pub fn remove(row: &mut ObjRow, password: u64) -> Result<(), Refusal>
    ensures refused { result ≡ (if list_any (λ pw. has_password password pw) row.old.passwords then Ok tt else Err Refusal.NoPassword) }
    ensures list { row.new ≡ record row.old { passwords = filter (λ pw. not (has_password password pw)) row.old.passwords } }
{
    if !row.has_password(password) {
        return Err(Refusal::NoPassword);
    }
    row.remove_passwords(password);
    Ok(())
}
