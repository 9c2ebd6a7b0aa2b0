// The block of the counters, if it is staged: its words.
ghost use Rattle.std.specs.Prelude.{◌≡◌, true, false};
ghost use Rattle.mg_model.specs.Ranges.{IsCounters};
ghost use Rattle.mg_volume.specs.Standing.{RespellsCounters};

use mg_layout::GLOBALS_BLOCK;
use mg_model::Globals;
use mg_pages::Pages;

/// Writes other counters into their block, if it is staged, and returns whether it is. If it is not, nothing changes.
pub(crate) fn respell_counters(pages: &mut Pages, counters: &Globals) -> bool
    ensures not_staged { result ≡ false → pages.new ≡ pages.old }
    ensures staged { result ≡ true → RespellsCounters counters.now pages.old pages.new }
    ensures kept { IsCounters counters.now }
{
    if !pages.put(GLOBALS_BLOCK, 0, counters.draws()) {
        return false;
    }
    let _period = pages.put(GLOBALS_BLOCK, 8, counters.period());
    let _cursor = pages.put(GLOBALS_BLOCK, 16, counters.cursor());
    let _births = pages.put(GLOBALS_BLOCK, 24, counters.births());
    true
}
