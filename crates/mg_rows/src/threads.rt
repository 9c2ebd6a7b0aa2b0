// The rows of threads.
ghost use Rattle.std.specs.Prelude.{◌≡◌, ◌≤◌, ◌+◌, ◌-◌, ◌*◌, ◌==◌, ◌++◌, ◌∷◌, [], flat_map, if◌then◌else◌, replicate, length, Some, true};
ghost use Rattle.std.specs.List.{list_all};
ghost use Rattle.std.specs.Option.{option_map_or};
ghost use Rattle.mg_model.specs.Abbreviations.{frames_at, is_call_frame, slot_words, state_number};
ghost use Rattle.mg_model.specs.Bytes.{number_at, numbers_at, padded_to, words_bytes};
ghost use Rattle.mg_model.specs.Layout.{block_size};
ghost use Rattle.mg_model.specs.Ranges.{IsThreadRow};
ghost use Rattle.mg_model.specs.Spelling.{frame_at, frame_bytes, slots_at, state_numbered, thread_bytes, thread_fields, thread_read};
ghost use Rattle.mg_model.specs.Tests.{is_thread_row};
ghost use Rattle.mg_model.specs.Words.{same_bytes};
ghost use Rattle.mg_rows.specs.Answers.{as_read};
ghost use Rattle.mg_rows.specs.ThreadParts.{begins, head_words, with_frames};

use crate::spelled::Spelled;
use mg_disk::{BLOCK_SIZE, Block};
use mg_layout::{Filling, are_zeros, number_at};
use mg_model::{Fault, Frame, Slot, ThrRow, ThrState};

/// The bytes of a frame.
const FRAME: usize = 144;

/// The byte of a thread's row at which the first frame begins.
const FIRST_FRAME: usize = 128;

/// How many frames a thread may have.
const MOST_FRAMES: u64 = 16;

/// How many bytes of its block a thread with at most [`MOST_START_FRAMES`] frames takes; after them there are zeros.
pub const THREAD_START: usize = 704;

/// The most frames of a thread whose bytes are all in the start of its block.
pub const MOST_START_FRAMES: usize = 4;

/// What a block spells of a thread.
pub fn read_thread(block: &Block) -> Option<Spelled<ThrRow>>
    ensures { as_read result ≡ thread_read block.now }
{
    if are_zeros(block) {
        return Some(Spelled::Free);
    }
    match fields(block) {
        Some(row) => {
            if is_spelling(&row, block) {
                Some(Spelled::Row(row))
            } else {
                None
            }
        }
        None => None,
    }
}

/// Spells a thread, or a free row, in a block. It is read back.
pub fn write_thread(row: Option<&ThrRow>, out: &mut Block)
    ensures spelled { out.new ≡ option_map_or (λ row. thread_bytes row.now) row.entry (replicate block_size 0) }
    ensures read_back { thread_read out.new ≡ Some (option_map_or (λ row. Some row.now) row.entry None) }
{
    *out = thread_block(row);
}

/// The block that spells a thread, or a free row. It is read back.
pub fn thread_block(row: Option<&ThrRow>) -> Block
    ensures spelled { result ≡ option_map_or (λ row. thread_bytes row.now) row.entry (replicate block_size 0) }
    ensures read_back { thread_read result ≡ Some (option_map_or (λ row. Some row.now) row.entry None) }
{
    match row {
        Some(row) => spelling(row),
        None => [0; BLOCK_SIZE],
    }
}

/// The bytes that the block of a thread with at most 4 frames begins with. After them the block has zeros. It is read back.
pub fn thread_start(row: &ThrRow) -> [u8; THREAD_START]
    requires few { length row.now.frames ≤ 4 }
    ensures spelled { padded_to block_size result ≡ thread_bytes row.now }
    ensures read_back { thread_read (padded_to block_size result) ≡ Some (Some row.now) }
{
    let mut filling = Filling::new();
    add_head(row, &mut filling);
    filling.add_words(&row.regs());
    add_frames(row.frames(), &mut filling);
    filling.whole()
}

// Whether this thread has these bytes.
fn is_spelling(row: &ThrRow, block: &Block) -> bool
    ensures { result ≡ same_bytes (thread_bytes row.now) block.now }
{
    spelling(row) == *block
}

// The bytes of this thread.
fn spelling(row: &ThrRow) -> Block
    ensures spelled { result ≡ thread_bytes row.now }
    ensures read_back { thread_read result ≡ Some (Some row.now) }
{
    let mut filling = Filling::new();
    add_head(row, &mut filling);
    filling.add_words(&row.regs());
    add_frames(row.frames(), &mut filling);
    filling.whole()
}

// What a thread's row begins with.
fn add_head<const N: usize>(row: &ThrRow, filling: &mut Filling<N>)
    requires empty { filling.old ≡ [] }
    requires room { 64 ≤ N }
    ensures spelled { filling.new ≡ padded_to 64 (words_bytes (head_words row.now)) }
    ensures long { length filling.new ≡ 64 }
    ensures kept { IsThreadRow row.now }
{
    filling.add_words(&[
        1,
        row.birth(),
        row.creator(),
        row.pc(),
        state_number(row.state()),
        row.frames().len() as u64,
    ]);
    filling.skip(16);
}

/// The number of a state, as its word spells it.
pub fn state_number(state: ThrState) -> u64
    ensures { result ≡ state_number state }
{
    match state {
        ThrState::Ready => 0,
        ThrState::Stopped => 1,
        ThrState::Faulted(Fault::Align) => 2,
        ThrState::Faulted(Fault::Denied) => 3,
        ThrState::Faulted(Fault::Opcode) => 4,
    }
}

fn add_frames<const N: usize>(frames: &[Frame], filling: &mut Filling<N>)
    requires { length filling.old + 144 * length frames.now ≤ N }
    ensures value { filling.new ≡ filling.old ++ flat_map frame_bytes frames.now }
    ensures long { length filling.new ≡ length filling.old + 144 * length frames.now }
{
    for frame in frames {
        add_frame(frame, filling);
    }
}

// A frame, and zeros in place of the slots that it doesn't have.
fn add_frame<const N: usize>(frame: &Frame, filling: &mut Filling<N>)
    requires { length filling.old + 144 ≤ N }
    ensures value { filling.new ≡ filling.old ++ frame_bytes frame.now }
    ensures long { length filling.new ≡ length filling.old + 144 }
{
    let slots = frame.slots();
    filling.add_words(&[frame.back(), slots.len() as u64]);
    add_slots(slots, filling);
    filling.skip(128 - 16 * slots.len());
}

fn add_slots<const N: usize>(slots: &[Slot], filling: &mut Filling<N>)
    requires { length filling.old + 16 * length slots.now ≤ N }
    ensures value { filling.new ≡ filling.old ++ words_bytes (flat_map slot_words slots.now) }
    ensures long { length filling.new ≡ length filling.old + 16 * length slots.now }
{
    for slot in slots {
        filling.add_words(&[slot.base, slot.password]);
    }
}

// The fields of a thread, if they keep their rule.
fn fields(block: &Block) -> Option<ThrRow>
    ensures { result ≡ (if is_thread_row (thread_fields block.now) then Some (thread_fields block.now) else None) }
{
    let count = number_at(block, 40);
    if count < 1 || count > MOST_FRAMES {
        return None;
    }
    match begun(block) {
        Some(row) => with_frames(row, block, count as usize),
        None => None,
    }
}

// The thread with its first frame alone, if these keep their rules.
fn begun(block: &Block) -> Option<ThrRow>
    ensures { result ≡ (if begins block.now then Some (with_frames block.now 1) else None) }
{
    let birth = number_at(block, 8);
    let creator = number_at(block, 16);
    let pc = number_at(block, 24);
    if creator >= birth || pc % 8 != 0 {
        return None;
    }
    match frame_in(block, FIRST_FRAME) {
        Some(first) => {
            if !is_bottom(&first) {
                return None;
            }
            let mut row = ThrRow::new(birth, creator, pc, first);
            row.set_state(state_numbered(number_at(block, 32)));
            set_registers(&mut row, block);
            Some(row)
        }
        None => None,
    }
}

// Whether a frame may be the first: it returns to 0.
fn is_bottom(frame: &Frame) -> bool
    ensures { result ≡ (frame.now.back == 0) }
{
    frame.back() == 0
}

fn state_numbered(number: u64) -> ThrState
    ensures { result ≡ state_numbered number }
{
    match number {
        0 => ThrState::Ready,
        1 => ThrState::Stopped,
        2 => ThrState::Faulted(Fault::Align),
        3 => ThrState::Faulted(Fault::Denied),
        _ => ThrState::Faulted(Fault::Opcode),
    }
}

fn set_registers(row: &mut ThrRow, block: &Block)
    requires { length row.old.regs ≡ 8 }
    ensures { row.new ≡ record row.old { regs = numbers_at block.now 64 8 } }
{
    for place in 0..8 {
        row.set_register(place, number_at(block, 64 + 8 * place));
    }
}

// The thread with its other frames too, if they keep their rule.
fn with_frames(begun: ThrRow, block: &Block, count: usize) -> Option<ThrRow>
    requires begun { begun ≡ with_frames block.now 1 }
    requires first { is_call_frame (frame_at block.now 128) ≡ true }
    requires count_at_least_1 { 1 ≤ count }
    requires count_at_most_16 { count ≤ 16 }
    ensures { result ≡ (if list_all is_call_frame (frames_at block.now 128 count) then Some (with_frames block.now count) else None) }
{
    let mut row = begun;
    for place in 1..count {
        match frame_in(block, FIRST_FRAME + FRAME * place) {
            Some(frame) => row.push_frame(frame),
            None => return None,
        }
    }
    Some(row)
}

// The frame that begins at this place, if it keeps its rule.
fn frame_in(block: &Block, at: usize) -> Option<Frame>
    requires { at + 144 ≤ block_size }
    ensures { result ≡ (if is_call_frame (frame_at block.now at) then Some (frame_at block.now at) else None) }
{
    let back = number_at(block, at);
    let count = number_at(block, at + 8);
    if back % 8 != 0 || count > 8 {
        return None;
    }
    let mut frame = Frame::new(back);
    add_slots_of(&mut frame, block, at + 16, count as usize);
    Some(frame)
}

// Adds `count` slots, read from this place on, to a frame without any.
fn add_slots_of(frame: &mut Frame, block: &Block, at: usize, count: usize)
    requires empty { frame.old.slots ≡ [] }
    requires count_at_most_8 { count ≤ 8 }
    requires within { at + 128 ≤ block_size }
    ensures { frame.new ≡ record frame.old { slots = slots_at block.now at count } }
{
    for place in 0..count {
        let offset = at + 16 * place;
        frame.add(Slot {
            base: number_at(block, offset),
            password: number_at(block, offset + 8),
        });
    }
}
