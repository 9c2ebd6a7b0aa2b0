// The block of a thread that moves elsewhere, if it is staged: the words of it that change.
ghost use Rattle.std.specs.Prelude.{◌≡◌, ◌≤◌, ◌<◌, true, false, length, slice_index_or, slice_set};
ghost use Rattle.mg_model.specs.Layout.{globals_block, table_block};
ghost use Rattle.mg_model.specs.State.{ThreadRow};
ghost use Rattle.mg_pages.specs.declared.pages.Pages.{Pages};
ghost use Rattle.mg_volume.specs.Standing.{Respells, stands_at};

use mg_model::{ThrRow, ThrState};
use mg_pages::Pages;
use mg_rows::{state_number, threads_change_by_words};

/// Where in a thread's block the words of its pc, its state and its registers begin.
const PC: usize = 24;

const STATE: usize = 32;

const REGISTERS: usize = 64;

/// The thread with this row moves elsewhere: the words of its block that spell where it is are written, if the block is staged.
/// Returns whether it is. If it is not, nothing changes.
pub(crate) fn respell(
    pages: &mut Pages,
    block: u64,
    row: &ThrRow,
    pc: u64,
    state: ThrState,
    regs: &[u64; 8],
) -> bool
    requires low { globals_block ≤ block }
    requires high { block < table_block }
    ensures not_staged { result ≡ false → pages.new ≡ pages.old }
    ensures staged { result ≡ true → Respells block row.now (stands_at pc state regs.now row.now) pages.old pages.new }
{
    if !put_pc(pages, block, row, pc) {
        return false;
    }
    put_state(pages, block, row.state(), state);
    put_registers(pages, block, &row.regs(), regs);
    true
}

fn put_pc(pages: &mut Pages, block: u64, row: &ThrRow, pc: u64) -> bool
    requires low { globals_block ≤ block }
    requires high { block < table_block }
    ensures not_staged { result ≡ false → pages.new ≡ pages.old }
    ensures staged { result ≡ true → Respells block row.now (record row.now { pc = pc }) pages.old pages.new }
{
    threads_change_by_words();
    let _row = row;
    pages.put(block, PC, pc)
}

// It continues from a block that is staged.
fn put_state(pages: &mut Pages, block: u64, old: ThrState, new: ThrState)
    requires low { globals_block ≤ block }
    requires high { block < table_block }
    ensures { (p : Pages) (first row : ThreadRow) → row.state ≡ old → Respells block first row p pages.old → Respells block first (record row { state = new }) p pages.new }
{
    threads_change_by_words();
    if old == new {
        return;
    }
    let _staged = pages.put(block, STATE, state_number(new));
}

// The words of the registers that change are written too.
fn put_registers(pages: &mut Pages, block: u64, old: &[u64; 8], new: &[u64; 8])
    requires low { globals_block ≤ block }
    requires high { block < table_block }
    ensures { (p : Pages) (first row : ThreadRow) → row.regs ≡ old.now → Respells block first row p pages.old → Respells block first (record row { regs = new.now }) p pages.new }
{
    for k in 0..8 {
        put_register(pages, block, k, old[k], new[k]);
    }
}

fn put_register(pages: &mut Pages, block: u64, k: usize, old: u64, new: u64)
    requires low { globals_block ≤ block }
    requires high { block < table_block }
    requires k_below_8 { k < 8 }
    ensures { (p : Pages) (first row : ThreadRow) → length row.regs ≡ 8 → slice_index_or row.regs k 0 ≡ old → Respells block first row p pages.old → Respells block first (record row { regs = slice_set row.regs k new }) p pages.new }
{
    threads_change_by_words();
    if old == new {
        return;
    }
    let _staged = pages.put(block, REGISTERS + 8 * k, new);
}
