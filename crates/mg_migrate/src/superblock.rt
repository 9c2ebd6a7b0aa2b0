// The superblock of a volume of version 1.
ghost use Rattle.std.specs.Prelude.{◌≡◌, if◌then◌else◌, ◌&&◌, Some, None};
ghost use Rattle.mg_migrate.specs.Spelling1.{super1_bytes, super1_read};
ghost use Rattle.mg_migrate.specs.Super1.{IsSuper1};
ghost use Rattle.mg_model.specs.Bytes.{number_at};
ghost use Rattle.mg_model.specs.Spelling.{are_settings, super_bytes, super_fields};
ghost use Rattle.mg_model.specs.Words.{same_bytes};

use mg_disk::Block;
use mg_layout::{MAGIC, Super, number_at, read_super, write_super};
use mg_model::Params;

/// Where its version is.
const VERSION_AT: usize = 8;

/// The version that is read here.
const OLD_VERSION: u8 = 1;

/// The version of the layout that is written today.
const VERSION: u8 = 2;

/// What a superblock spells, read as that of a volume of version 1.
#[derive(Clone, Copy, PartialEq, Eq)]
pub(crate) enum Super1 {
    /// No volume: it does not begin with the eight bytes.
    Not,
    /// A volume of an older version.
    Old,
    /// A volume of a newer version.
    New,
    /// None of these, and it is not spelled as version 1 does.
    Damaged,
    /// What the volume was made with.
    Is(Params),
}

/// Reads a superblock as that of a volume of version 1.
pub(crate) fn read_super1(block: &Block) -> Super1
    ensures { IsSuper1 result (super1_read block.now) }
{
    if MAGIC[..] != block[..8] {
        return Super1::Not;
    }
    let version = number_at(&block[..], VERSION_AT);
    if version < OLD_VERSION as u64 {
        return Super1::Old;
    }
    if version > OLD_VERSION as u64 {
        return Super1::New;
    }
    match settings_in(block) {
        Some(p) => Super1::Is(p),
        None => Super1::Damaged,
    }
}

// The settings in a superblock of version 1: what it spells once its version is replaced by today's.
fn settings_in(block: &Block) -> Option<Params>
    requires { number_at block.now 8 ≡ 1 }
    ensures { result ≡ (if are_settings (super_fields block.now) && same_bytes (super1_bytes (super_fields block.now)) block.now then Some (super_fields block.now) else None) }
{
    let mut now = *block;
    now[VERSION_AT] = VERSION;
    match read_super(&now) {
        Super::Is(p) => Some(p),
        Super::Not => None,
        Super::Old => None,
        Super::Damaged => None,
    }
}

/// Spells the superblock of a volume of version 1 with these settings.
pub(crate) fn write_super1(params: &Params, out: &mut Block)
    ensures { out.new ≡ super1_bytes params.now }
{
    write_super(params, out);
    out[VERSION_AT] = OLD_VERSION;
}
