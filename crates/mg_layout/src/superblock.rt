// The superblock: what a volume was made with.
ghost use Rattle.std.specs.Prelude.{◌≡◌, if◌then◌else◌};
ghost use Rattle.mg_model.specs.Bytes.{bytes_at};
ghost use Rattle.mg_model.specs.Abbreviations.{steps_at};
ghost use Rattle.mg_model.specs.Spelling.{are_settings, super_bytes, super_fields, super_read, Spells};
ghost use Rattle.mg_model.specs.Tariff.{is_tariff};
ghost use Rattle.mg_model.specs.Words.{same_bytes};
ghost use Rattle.mg_layout.specs.SuperBlock.{IsSuper};

use crate::filling::Filling;
use mg_bytes::number_at;
use mg_disk::{BLOCK_SIZE, Block};
use mg_model::layout::VERSION;
use mg_model::{Params, Tariff};

/// The eight bytes that a superblock begins with.
pub const MAGIC: [u8; 8] = *b"MUNGIVOL";

/// What a superblock spells.
#[derive(Clone, Copy, PartialEq, Eq)]
pub enum Super {
    /// No volume: it does not begin with the eight bytes.
    Not,
    /// A volume of an older version.
    Old,
    /// Neither, and it is not spelled as this version does.
    Damaged,
    /// What the volume was made with.
    Is(Params),
}

/// Spells the superblock of a volume with these settings. It is read back.
pub fn write_super(params: &Params, out: &mut Block)
    ensures spelled { out.new ≡ super_bytes params.now }
    ensures read_back { super_read out.new ≡ Spells params.now }
{
    let steps = params.tariff().steps();
    let mut filling = Filling::new();
    filling.add(&MAGIC);
    filling.add_words(&[VERSION, params.frames(), params.credits()]);
    filling.add(&params.seed());
    filling.add_words(&[
        steps[0].0, steps[0].1, steps[1].0, steps[1].1, steps[2].0, steps[2].1, steps[3].0,
        steps[3].1,
    ]);
    *out = filling.whole();
}

/// What a superblock spells.
pub fn read_super(block: &Block) -> Super
    ensures { IsSuper result (super_read block.now) }
{
    if MAGIC[..] != block[..8] {
        return Super::Not;
    }
    if number_at(block, 8) < VERSION {
        return Super::Old;
    }
    match fields(block) {
        Some(params) => {
            if is_spelling(&params, block) {
                Super::Is(params)
            } else {
                Super::Damaged
            }
        }
        None => Super::Damaged,
    }
}

// Whether a superblock with these settings has these bytes.
fn is_spelling(params: &Params, block: &Block) -> bool
    ensures { result ≡ same_bytes (super_bytes params.now) block.now }
{
    let mut spelled = [0; BLOCK_SIZE];
    write_super(params, &mut spelled);
    spelled == *block
}

// The fields of a superblock, if they keep their rules.
fn fields(block: &Block) -> Option<Params>
    ensures { result ≡ (if are_settings (super_fields block.now) then Some (super_fields block.now) else None) }
{
    match tariff_in(block) {
        Some(tariff) => Params::new(
            number_at(block, 16),
            seed_in(block),
            number_at(block, 24),
            tariff,
        ),
        None => None,
    }
}

fn tariff_in(block: &Block) -> Option<Tariff>
    ensures { result ≡ (if is_tariff (steps_at block.now 64 4) then Some (steps_at block.now 64 4) else None) }
{
    Tariff::new([
        (number_at(block, 64), number_at(block, 72)),
        (number_at(block, 80), number_at(block, 88)),
        (number_at(block, 96), number_at(block, 104)),
        (number_at(block, 112), number_at(block, 120)),
    ])
}

fn seed_in(block: &Block) -> [u8; 32]
    ensures { result ≡ bytes_at block.now 32 32 }
{
    let mut seed = [0; 32];
    seed.copy_from_slice(&block[32..64]);
    seed
}
