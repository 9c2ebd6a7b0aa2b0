// The block of a thread's row, as it is staged.
ghost use Rattle.std.specs.Prelude.{◌≡◌, ◌⊎◌, ◌≤◌, ◌<◌, ◌+◌, ◌-◌, ◌==◌, true, find, is_some, length, None, Some};
ghost use Rattle.std.specs.Option.{option_map};
ghost use Rattle.mg_model.specs.Layout.{body_limit, first_thread_block, globals_block, table_block};
ghost use Rattle.mg_model.specs.State.{ThreadRow};
ghost use Rattle.mg_pages.specs.Meaning.{is_staged, staged_of};
ghost use Rattle.mg_volume.specs.Standing.{StagesThread};

use crate::threads::Threads;
use mg_layout::FIRST_THREAD_BLOCK;
use mg_model::ThrRow;
use mg_pages::Pages;
use mg_rows::{MOST_START_FRAMES, thread_block, thread_start};

/// Stages the block that spells this row of a thread, or that there is none.
pub(crate) fn stage_any(pages: &mut Pages, block: u64, row: &Option<ThrRow>)
    requires low { globals_block ≤ block }
    requires high { block < table_block }
    requires staged_or_fewer_than_160 { (is_staged pages.old block ≡ true) ⊎ (staged_of pages.old < body_limit) }
    ensures { StagesThread block row.now pages.old pages.new }
{
    match row {
        Some(row) => stage_row(pages, block, row),
        None => stage_none(pages, block),
    }
}

/// Stages the row that the thread with this number, 1 to 256, has.
pub(crate) fn stage_held(pages: &mut Pages, threads: &Threads, number: u64)
    requires t_at_least_1 { 1 ≤ number }
    requires t_at_most_256 { number ≤ 256 }
    requires there { is_some (option_map (λ thread. thread.1) (find (λ thread. thread.0 == number) threads.now)) ≡ true }
    requires staged_or_fewer_than_160 { (is_staged pages.old (first_thread_block + number - 1) ≡ true) ⊎ (staged_of pages.old < body_limit) }
    ensures { (row : ThreadRow) → option_map (λ thread. thread.1) (find (λ thread. thread.0 == number) threads.now) ≡ Some row → StagesThread (first_thread_block + number - 1) (Some row) pages.old pages.new }
{
    match threads.get(number) {
        Some(row) => stage_row(pages, FIRST_THREAD_BLOCK + number - 1, row),
        None => unreachable!(),
    }
}

// Stages a row that is there. If it has few frames, no block is spelled whole.
fn stage_row(pages: &mut Pages, block: u64, row: &ThrRow)
    requires low { globals_block ≤ block }
    requires high { block < table_block }
    requires staged_or_fewer_than_160 { (is_staged pages.old block ≡ true) ⊎ (staged_of pages.old < body_limit) }
    ensures { StagesThread block (Some row.now) pages.old pages.new }
{
    if row.frames().len() <= MOST_START_FRAMES {
        stage_few(pages, block, row);
    } else {
        stage_many(pages, block, row);
    }
}

// Stages a row with few frames, whose bytes all lie in the start of its block. Each of the two ways clears what it needs itself.
fn stage_few(pages: &mut Pages, block: u64, row: &ThrRow)
    requires low { globals_block ≤ block }
    requires high { block < table_block }
    requires staged_or_fewer_than_160 { (is_staged pages.old block ≡ true) ⊎ (staged_of pages.old < body_limit) }
    requires few { length row.now.frames ≤ 4 }
    ensures { StagesThread block (Some row.now) pages.old pages.new }
{
    pages.stage_start(block, &thread_start(row));
}

// Stages a row with many frames.
fn stage_many(pages: &mut Pages, block: u64, row: &ThrRow)
    requires low { globals_block ≤ block }
    requires high { block < table_block }
    requires staged_or_fewer_than_160 { (is_staged pages.old block ≡ true) ⊎ (staged_of pages.old < body_limit) }
    ensures { StagesThread block (Some row.now) pages.old pages.new }
{
    pages.stage(block, &thread_block(Some(row)));
}

// Stages that there is no row.
fn stage_none(pages: &mut Pages, block: u64)
    requires low { globals_block ≤ block }
    requires high { block < table_block }
    requires staged_or_fewer_than_160 { (is_staged pages.old block ≡ true) ⊎ (staged_of pages.old < body_limit) }
    ensures { StagesThread block None pages.old pages.new }
{
    pages.stage(block, &thread_block(None));
}
