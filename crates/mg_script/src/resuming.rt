// A turn as a call: the effect of a thread's word, the call that the effect makes, and the thread's row after it.
ghost use Rattle.std.specs.Prelude.{◌≡◌, ◌<◌, ◌%◌, IfSome, ℕ};
ghost use Rattle.mg_model.specs.Abbreviations.{advanced};
ghost use Rattle.mg_model.specs.Script.{with_register};
ghost use Rattle.mg_model.specs.State.{State};
ghost use Rattle.mg_script.specs.Actions.{entering_call};
ghost use Rattle.mg_script.specs.Effects.{HasFrames, HasPlace, IsSpelledBy, begun, entered, fault_of, faulted_row, finished, loaded, made_by, refused_row, resumed, returned, returning_on, standing, stood, stored, turned_on};

use crate::calls::spell;
use crate::effects::{Effect, Standing, advance, effect_of, here, onward};
use crate::settling::{refuse, settle};
use crate::words::decode;
use mg_model::{Call, Fault, Refusal, Reply, ThrRow, ThrState};

/// The effect of a thread's turn, by the word that it fetched, or None if it may not fetch it. The thread faults if there is no
/// word (Denied), or the word spells no instruction (Opcode). The row is the thread's, and its pc is not yet advanced.
pub fn begin(row: &ThrRow, fetched: Option<u64>) -> Effect
    ensures turn { (state : State) (t : ℕ) → turned_on state t row.now fetched ≡ finished state t (advanced row.now) result }
    ensures place { HasPlace result }
    ensures frames { HasFrames row.now result }
    ensures call { made_by row.now result ≡ begun row.now fetched }
{
    match fetched {
        Some(word) => match decode(word) {
            Some(instr) => effect_of(&instr, row),
            None => Effect::Next(faulting(row, Fault::Opcode)),
        },
        None => Effect::Next(faulting(row, Fault::Denied)),
    }
}

/// The call that an effect makes. The row is the thread's. The call is Bad if the effect is a `Next`, which makes none, or a `Pdx`
/// with a mask above 255.
pub fn call(row: &ThrRow, effect: &Effect) -> Call
    ensures value { result ≡ made_by row.now effect.now }
    ensures spelled { IsSpelledBy effect.now result }
{
    match effect {
        Effect::Next(_) => Call::Bad,
        Effect::Load { a, .. } => Call::Load { a: *a },
        Effect::Store { a, value } => Call::Store {
            a: *a,
            value: *value,
        },
        Effect::Pdx { a, mask } => enter(*a, *mask),
        Effect::Ret => Call::Ret,
        Effect::Sys => spell(row),
    }
}

// The call `pdx` with this mask.
fn enter(address: u64, mask: u64) -> Call
    ensures { result ≡ entering_call address mask }
{
    if mask > 255 {
        return Call::Bad;
    }
    Call::Pdx {
        a: address,
        mask: mask as u8,
    }
}

/// The row of a thread after its turn. `row` is the row after the call of the turn's effect, and `reply` that call's reply.
/// A load or a store that is refused faults, and the pc stays. After every other call the pc is advanced, or is the address
/// that the call went to. A frame that a `Pdx` entered returns to the word after the `pdx`.
pub fn resume(row: ThrRow, effect: &Effect, reply: &Reply) -> ThrRow
    requires { HasPlace effect.now }
    ensures { result ≡ resumed effect.now reply.now row }
{
    match effect {
        Effect::Next(next) => moved(row, next),
        Effect::Load { to, .. } => after_load(row, *to, reply),
        Effect::Store { .. } => after_store(row, reply),
        Effect::Pdx { .. } => after_pdx(row, reply),
        Effect::Ret => after_ret(row, reply),
        Effect::Sys => after_sys(row, reply),
    }
}

/// The pc, the state and the registers of a thread after its turn. `row` is the row after the call of the turn's effect, and `reply`
/// that call's reply. None if the turn may change more of the row: after a call that the registers spelled, and after `pdx` and
/// `ret`. [`resume`] has the row then.
pub fn standing_after(row: &ThrRow, effect: &Effect, reply: &Reply) -> Option<Standing>
    requires { HasPlace effect.now }
    ensures value { IfSome result (λ stands. resumed effect.now reply.now row.now ≡ stood stands row.now) }
    ensures aligned { IfSome result (λ stands. stands.pc % 8 ≡ 0) }
{
    match effect {
        Effect::Next(next) => Some(*next),
        Effect::Load { to, .. } => Some(standing_after_load(row, *to, reply)),
        Effect::Store { .. } => Some(standing_after_store(row, reply)),
        Effect::Pdx { .. } | Effect::Ret | Effect::Sys => None,
    }
}

fn standing_after_load(row: &ThrRow, to: u8, reply: &Reply) -> Standing
    requires { to < 8 }
    ensures value { result ≡ standing (loaded to reply.now row.now) }
    ensures aligned { result.pc % 8 ≡ 0 }
{
    match *reply {
        Reply::Value(word) => {
            let mut stands = onward(row);
            stands.regs[to as usize] = word;
            stands
        }
        Reply::No(word) => faulting(row, fault(word)),
        _ => here(row),
    }
}

fn standing_after_store(row: &ThrRow, reply: &Reply) -> Standing
    ensures value { result ≡ standing (stored reply.now row.now) }
    ensures aligned { result.pc % 8 ≡ 0 }
{
    match *reply {
        Reply::Done => onward(row),
        Reply::No(word) => faulting(row, fault(word)),
        _ => here(row),
    }
}

// The thread faults, and its pc stays.
fn faulting(row: &ThrRow, kind: Fault) -> Standing
    ensures value { result ≡ standing (faulted_row kind row.now) }
    ensures aligned { result.pc % 8 ≡ 0 }
{
    Standing {
        pc: row.pc,
        state: ThrState::Faulted(kind),
        regs: row.regs,
    }
}

// The row with another pc, another state and other registers.
pub(crate) fn moved(mut row: ThrRow, stands: &Standing) -> ThrRow
    requires { stands.now.pc % 8 ≡ 0 }
    ensures { result ≡ stood stands.now row }
{
    row.set_pc(stands.pc);
    row.set_state(stands.state);
    row.set_regs(stands.regs);
    row
}

fn after_load(mut row: ThrRow, to: u8, reply: &Reply) -> ThrRow
    requires { to < 8 }
    ensures { result ≡ loaded to reply.now row }
{
    match *reply {
        Reply::Value(word) => {
            advance(&mut row);
            row.set_register(to as usize, word);
            row
        }
        Reply::No(word) => faulted(row, fault(word)),
        _ => row,
    }
}

fn after_store(mut row: ThrRow, reply: &Reply) -> ThrRow
    ensures { result ≡ stored reply.now row }
{
    match *reply {
        Reply::Done => {
            advance(&mut row);
            row
        }
        Reply::No(word) => faulted(row, fault(word)),
        _ => row,
    }
}

fn after_pdx(row: ThrRow, reply: &Reply) -> ThrRow
    ensures { result ≡ entered reply.now row }
{
    match *reply {
        Reply::No(word) => refused(row, word),
        _ => in_frame(row),
    }
}

fn after_ret(row: ThrRow, reply: &Reply) -> ThrRow
    ensures { result ≡ returned reply.now row }
{
    match *reply {
        Reply::No(word) => refused(row, word),
        _ => row,
    }
}

fn after_sys(mut row: ThrRow, reply: &Reply) -> ThrRow
    ensures { result ≡ resumed Effect.Sys reply.now row }
{
    advance(&mut row);
    settle(&mut row, reply);
    row
}

// The row of a thread that entered an object: register 0 gets 0.
fn in_frame(row: ThrRow) -> ThrRow
    ensures { result ≡ with_register (record row { frames = returning_on row.frames }) 0 0 }
{
    let mut row = returning(row);
    row.set_register(0, 0);
    row
}

// The row with its last frame returning to the next word.
fn returning(mut row: ThrRow) -> ThrRow
    ensures { result ≡ record row { frames = returning_on row.frames } }
{
    let mut last = row.last();
    if row.frames.as_slice().len() <= 1 {
        return row;
    }
    last.set_back(last.back().wrapping_add(8));
    row.pop_frame();
    row.push_frame(last);
    row
}

fn refused(mut row: ThrRow, word: Refusal) -> ThrRow
    ensures { result ≡ refused_row word row }
{
    advance(&mut row);
    refuse(&mut row, word);
    row
}

// The row of a thread that faults. Nothing else of it changes.
fn faulted(mut row: ThrRow, kind: Fault) -> ThrRow
    ensures { result ≡ faulted_row kind row }
{
    row.set_state(ThrState::Faulted(kind));
    row
}

// The fault of a load or a store that is refused.
fn fault(word: Refusal) -> Fault
    ensures { result ≡ fault_of word }
{
    match word {
        Refusal::Align => Fault::Align,
        _ => Fault::Denied,
    }
}
