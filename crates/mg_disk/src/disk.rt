// The trait that the layers above are proved against.
ghost use Rattle.std.specs.Prelude.{◌≡◌, ◌+◌, ◌<◌, ◌≤◌, ◌^◌, ℕ, Bool, IsTrue, Option, length, slice_set, option_map, OnOk, OnErr, IsSomeAnd};
ghost use Rattle.std.specs.Option.{ForSome};
ghost use Rattle.mg_faults.specs.Faults.{CountGoesOn, Rose};
ghost use Rattle.mg_disk.specs.Disk.{Moment, Time, Image, block_at, AreBytes, HasBlocks, InRange, SeenBut, only_place, GoesOn, no_image, TornAt, OnlySeen};

use mg_faults::Failed;

/// The bytes of a block.
pub const BLOCK_SIZE: usize = 4096;

/// Byte 0 of an open gate: the worst byte that a write which was not synced yet may leave.
pub const GATE_OPEN: u8 = 0xA5;

/// A block.
pub type Block = [u8; BLOCK_SIZE];

/// How many blocks are read and written together, 128 KiB, when one disk is copied to another.
pub const COPY_BLOCKS: usize = 32;

/// A disk of fixed blocks. Any call may fail. What was written survives a stop once a later sync answered Ok.
///
/// Some disks tell what reads give and what a stop may leave, and others do not. For a disk that does not, the clauses on
/// them say nothing. The clauses on the count of faults hold for every disk.
pub trait Disk {
    /// How many blocks it has. This never changes.
    ghost block_count: { Self → ℕ };

    /// What reads give now, if the disk tells it.
    ghost seen: { Self → Option Image };

    /// Whether the disk tells which images a stop may leave.
    ghost tells_stops: { Self → Bool };

    /// Its time: the moment now, the moments up to now, and what a stop may leave. A stop at some moment since one may leave
    /// no image if the disk does not tell of stops, nor since a moment of a form that the disk does not name.
    ghost time: { Self → Time };

    /// The count of faults.
    ghost faults: { Self → ℕ };

    /// The count is at its last value.
    ghost is_spent: { Self → Bool };

    /// How many blocks it has.
    fn blocks(&self) -> u64
        ensures count { result ≡ block_count self.now };

    /// States that this count has 64 bits, for proofs. It does nothing when it runs.
    fn keeps_count(&self)
        ensures { block_count self.now < 2 ^ 64 }
    {
        let _count = self.blocks();
    }

    /// Reads block `i`. A read that fails leaves any bytes in `out`.
    fn read(&mut self, i: u64, out: &mut Block) -> Result<(), Failed>
        requires in_range { i < block_count self.old }
        ensures block { OnOk result (ForSome (seen self.old) (λ image. out.new ≡ block_at image i)) }
        ensures seen { seen self.new ≡ seen self.old }
        ensures stops { GoesOn (time self.old) (time self.new) no_image }
        ensures blocks { block_count self.new ≡ block_count self.old }
        ensures tells { tells_stops self.new ≡ tells_stops self.old }
        ensures count { CountGoesOn (faults self.old) (faults self.new) (is_spent self.old) (is_spent self.new) }
        ensures cause { OnErr result (Rose (faults self.old) (faults self.new) (is_spent self.new)) };

    /// Writes a block at `i`. Until a good sync a stop may leave any bytes there, also after a write that failed.
    fn write(&mut self, i: u64, from: &Block) -> Result<(), Failed>
        requires in_range { i < block_count self.old }
        ensures written { OnOk result (seen self.new ≡ option_map (λ image. slice_set image i from.now) (seen self.old)) }
        ensures unknown { OnErr result (SeenBut (only_place i) (seen self.old) (seen self.new)) }
        ensures stops { GoesOn (time self.old) (time self.new) (TornAt (only_place i) ((time self.old).left_since (time self.old).moment)) }
        ensures blocks { block_count self.new ≡ block_count self.old }
        ensures tells { tells_stops self.new ≡ tells_stops self.old }
        ensures count { CountGoesOn (faults self.old) (faults self.new) (is_spent self.old) (is_spent self.new) }
        ensures cause { OnErr result (Rose (faults self.old) (faults self.new) (is_spent self.new)) };

    /// Reads blocks that are next to each other, the first of them block `first`, as many as `out` has room for. A run that
    /// fails leaves any bytes in `out`.
    ///
    /// If a disk has no faster way, this is one call of `read` for each block.
    fn read_blocks(&mut self, first: u64, out: &mut [Block]) -> Result<(), Failed>
        requires in_range { first + length out.old ≤ block_count self.old }
        ensures read { OnOk result (ForSome (seen self.old) (HasBlocks first out.new)) }
        ensures same_length { length out.new ≡ length out.old }
        ensures seen { seen self.new ≡ seen self.old }
        ensures stops { GoesOn (time self.old) (time self.new) no_image }
        ensures blocks { block_count self.new ≡ block_count self.old }
        ensures tells { tells_stops self.new ≡ tells_stops self.old }
        ensures count { CountGoesOn (faults self.old) (faults self.new) (is_spent self.old) (is_spent self.new) }
        ensures cause { OnErr result (Rose (faults self.old) (faults self.new) (is_spent self.new)) }
    {
        self.keeps_count();
        for k in 0..out.len() {
            match self.read(first + k as u64, &mut out[k]) {
                Ok(()) => {}
                Err(Failed) => return Err(Failed),
            }
        }
        Ok(())
    }

    /// Writes blocks next to each other, the first of them at `first`. Until a good sync a stop may leave any bytes at each
    /// of these places, also after a run that failed. Such a run may have written some of the blocks.
    ///
    /// If a disk has no faster way, this is one call of `write` for each block.
    fn write_blocks(&mut self, first: u64, from: &[Block]) -> Result<(), Failed>
        requires in_range { first + length from.now ≤ block_count self.old }
        ensures written { OnOk result (ForSome (seen self.new) (HasBlocks first from.now)) }
        ensures unknown { SeenBut (InRange first (length from.now)) (seen self.old) (seen self.new) }
        ensures stops { GoesOn (time self.old) (time self.new) (TornAt (InRange first (length from.now)) ((time self.old).left_since (time self.old).moment)) }
        ensures blocks { block_count self.new ≡ block_count self.old }
        ensures tells { tells_stops self.new ≡ tells_stops self.old }
        ensures count { CountGoesOn (faults self.old) (faults self.new) (is_spent self.old) (is_spent self.new) }
        ensures cause { OnErr result (Rose (faults self.old) (faults self.new) (is_spent self.new)) }
    {
        self.keeps_count();
        for (k, block) in from.iter().enumerate() {
            match self.write(first + k as u64, block) {
                Ok(()) => {}
                Err(Failed) => return Err(Failed),
            }
        }
        Ok(())
    }

    /// After Ok a stop leaves what reads give. A sync that fails changes nothing.
    fn sync(&mut self) -> Result<(), Failed>
        ensures durable { OnOk result (OnlySeen (seen self.new) ((time self.new).left_since (time self.new).moment)) }
        ensures seen { seen self.new ≡ seen self.old }
        ensures stops { GoesOn (time self.old) (time self.new) no_image }
        ensures blocks { block_count self.new ≡ block_count self.old }
        ensures tells { tells_stops self.new ≡ tells_stops self.old }
        ensures count { CountGoesOn (faults self.old) (faults self.new) (is_spent self.old) (is_spent self.new) }
        ensures cause { OnErr result (Rose (faults self.old) (faults self.new) (is_spent self.new)) };

    /// The moment now has been.
    ghost now_has_been: { (disk : Self) → (time disk).has_been (time disk).moment };

    /// What a stop may leave now, it may leave since any earlier moment.
    ghost counts_now: { (disk : Self) (t : Moment) (c : Image) → (time disk).has_been t → (time disk).left_since (time disk).moment c → (time disk).left_since t c };

    /// What reads give is one of the images that a stop may leave now. So a disk that tells of stops also tells what reads
    /// give.
    ghost seen_may_stay: { (disk : Self) → IsTrue (tells_stops disk) → IsSomeAnd (seen disk) ((time disk).left_since (time disk).moment) };

    /// If the disk does not tell of stops, no image may be left.
    ghost only_told: { (disk : Self) (t : Moment) (c : Image) → (time disk).left_since t c → IsTrue (tells_stops disk) };

    /// What reads give has `block_count` blocks.
    ghost seen_count: { (disk : Self) → ForSome (seen disk) (λ image. length image ≡ block_count disk) };

    /// What reads give are bytes, since a [`Block`] has room for no other numbers. An image is lists of numbers of any size,
    /// so only this law keeps the numbers of an image in range.
    ghost seen_bytes: { (disk : Self) → ForSome (seen disk) AreBytes };
}
