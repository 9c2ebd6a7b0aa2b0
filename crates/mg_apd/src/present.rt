// The present frame of a thread, which is its last.
ghost use Rattle.std.specs.Prelude.{◌≡◌};
ghost use Rattle.mg_model.specs.Access.{last_slots};
ghost use Rattle.mg_model.specs.Domains.{last_back, with_last_slots};

use mg_model::{Frame, ThrRow};

/// The present frame.
pub(crate) fn present(row: &ThrRow) -> Frame
    ensures slots { result.slots ≡ last_slots row.now.frames }
    ensures back { result.back ≡ last_back row.now.frames }
{
    row.last()
}

/// Other slots in the present frame.
pub(crate) fn put_present(row: &mut ThrRow, last: Frame)
    requires { last.back ≡ last_back row.old.frames }
    ensures { row.new ≡ record row.old { frames = with_last_slots row.old.frames last.slots } }
{
    row.set_last(last);
}
