// The entries of a capability list.
ghost use Rattle.std.specs.Prelude.{◌≡◌, ◌≤◌, min};
ghost use Rattle.mg_model.specs.Limits.{pair_limit};

use mg_model::limits::PAIR_LIMIT;

/// How many entries of a capability list are read whose first word is this count: 255 at most.
pub fn entries(count: u64) -> u64
    ensures { result ≡ min count pair_limit }
{
    count.min(PAIR_LIMIT)
}
