// Where the parts of the journal lie, in blocks.
ghost use Rattle.std.specs.Prelude.{◌≡◌, ◌<◌, ◌==◌, false, slice_index};
ghost use Rattle.mg_model.specs.Layout.{gate_open, segment_count, segment_gate, segment_index};

use mg_disk::{BLOCK_SIZE, Block, GATE_OPEN};
use mg_model::layout::{FIRST_SEGMENT, SEGMENT_COUNT, SEGMENT_SIZE};

/// How many segments there are.
pub(crate) const SEGMENTS: u64 = SEGMENT_COUNT;

/// The block of a segment's gate.
pub(crate) fn gate_of(segment: u64) -> u64
    requires segment_below_8 { segment < segment_count }
    ensures { result ≡ segment_gate segment }
{
    FIRST_SEGMENT + SEGMENT_SIZE * segment
}

/// The block of a segment's index.
pub(crate) fn index_of(segment: u64) -> u64
    requires segment_below_8 { segment < segment_count }
    ensures { result ≡ segment_index segment }
{
    gate_of(segment) + 1
}

/// What is written at a gate to open it.
pub(crate) fn opened_gate() -> Block
    ensures { slice_index result 0 ≡ gate_open }
{
    let mut gate = [0; BLOCK_SIZE];
    gate[0] = GATE_OPEN;
    gate
}

/// A gate that is closed.
static CLOSED_GATE: Block = [0; BLOCK_SIZE];

/// What is written at a gate to close it.
pub(crate) fn closed_gate() -> &'static Block
    ensures { (slice_index result.now 0 == gate_open) ≡ false }
{
    &CLOSED_GATE
}

/// Whether a gate with these bytes is open.
pub(crate) fn is_opened(gate: &Block) -> bool
    ensures { result ≡ (slice_index gate.now 0 == gate_open) }
{
    gate[0] == GATE_OPEN
}
