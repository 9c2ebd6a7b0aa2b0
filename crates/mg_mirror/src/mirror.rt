// One disk of two.
ghost use Rattle.std.specs.Prelude.{◌≡◌, ◌+◌, ◌<◌, ◌≤◌, ℕ, Option, None, Some, ◌&&◌, option_map, slice_set, length, OnOk, OnErr};
ghost use Rattle.std.specs.Option.{ForSome};
ghost use Rattle.mg_disk.specs.Stops.{NothingPending, WritesNothing, TimeGoes, DiskCalls};
ghost use Rattle.mg_disk.specs.Disk.{HasBlocks, InRange, SeenBut, TornAt, block_at, no_image, only_place};
ghost use Rattle.mg_disk.specs.Calls.{IsWrite, IsSync};
ghost use Rattle.mg_mirror.specs.Sides.{FailsWithSides, ReadsSides, DropsSides};
ghost use Rattle.mg_mirror.specs.declared.mirror.Side.{Side};
ghost use Rattle.mg_mirror.specs.Opened.{RoseFrom, BothRose};
ghost use Rattle.mg_faults.specs.Faults.{is_last};
ghost use Rattle.mg_mirror.specs.Mirror.{seen_of, SameWhileBoth, moment_of, Been, LeftSince, two_times};
ghost use Rattle.mg_mirror.specs.MirrorLemmas.{seen_long, seen_bytes, and_left, and_right};
ghost use Rattle.mg_mirror.specs.MomentLemmas.{been_now, counted_now, seen_stays};

use crate::copy::copy_side;
use mg_disk::{Block, Disk, Failed};
use mg_faults::FaultCount;
use std::marker::{Brand, PhantomData};

/// A side of a mirror.
#[derive(Clone, Copy, PartialEq, Eq)]
pub enum Side {
    Left,
    Right,
}

/// What is known of the two disks from before: the counts of faults as opening began, and a disk that was outside once the mirror was
/// opened. A run picks them.
pub trait Opened<D, E> {
    /// The count of the left disk.
    ghost left_faults: { ℕ };

    /// The count of the right disk.
    ghost right_faults: { ℕ };

    /// The left disk, if the right one is known to have stood alone since it was this one.
    ghost left_out: { Option D };

    /// The right disk, if the left one is known to have stood alone since it was this one.
    ghost right_out: { Option E };
}

impl<D, E> Opened<D, E> for Brand {
    ghost left_faults = { 0 };

    ghost right_faults = { 0 };

    ghost left_out = { None };

    ghost right_out = { None };
}

/// One disk of two. A side whose write or sync fails is dropped, and the mirror continues with the other.
/// A side is dropped only if its count of faults rose since opening began, or is at its last value, and the
/// mirror's own count is above 0 only if that holds of both sides. No call reaches a side that was dropped.
#[derive(Drop)]
pub struct Mirror<D: Disk, E: Disk, K: Opened<D, E> = Brand> {
    left: D,
    right: E,
    blocks: u64,
    /// The one side in use, or none while both are.
    alone: Option<Side>,
    count: FaultCount,
    of: PhantomData<K>,
    ghost left_long: { blocks ≤ D.block_count left },
    ghost right_long: { blocks ≤ E.block_count right },
    ghost same: { SameWhileBoth blocks alone (D.seen left) (E.seen right) },
    ghost left_no_less: { K.left_faults ≤ D.faults left },
    ghost right_no_less: { K.right_faults ≤ E.faults right },
    ghost dropped_right: { alone ≡ Some Side.Left → RoseFrom K.right_faults (E.faults right) (E.is_spent right) },
    ghost dropped_left: { alone ≡ Some Side.Right → RoseFrom K.left_faults (D.faults left) (D.is_spent left) },
    ghost left_out: { ForSome K.left_out (λ d. (alone ≡ Some Side.Right) × (left ≡ d)) },
    ghost right_out: { ForSome K.right_out (λ e. (alone ≡ Some Side.Left) × (right ≡ e)) },
    ghost both_rose: { 0 < count → BothRose K.left_faults (D.faults left) (D.is_spent left) K.right_faults (E.faults right) (E.is_spent right) },
}

/// A mirror was not opened. Both disks, as they are.
pub struct MirrorFailed<D: Disk, E: Disk> {
    pub left: D,
    pub right: E,
}

impl<D: Disk, E: Disk, K: Opened<D, E>> Mirror<D, E, K> {
    ghost use Rattle.mg_mirror.specs.Opens.{Opens};

    /// Opens a mirror with what the disk on the side `from` has, whose first blocks are read and written to the other. Block 0 of the
    /// other one is closed with zeros first and written last, with a sync after each step, so that a stop within the copy leaves no
    /// mixture of both after a block 0 of a volume.
    ///
    /// It fails if `from` does; if the other fails, the mirror stands alone on `from`. Its reads are told if those of both
    /// disks are. `K` has the counts of both disks.
    pub fn open(left: D, right: E, from: Side) -> Result<Mirror<D, E, K>, MirrorFailed<D, E>>
        requires left_faults { D.faults left ≡ K.left_faults }
        requires right_faults { E.faults right ≡ K.right_faults }
        requires left_unknown { K.left_out ≡ None }
        requires right_unknown { K.right_out ≡ None }
        ensures opens { Opens D.Disk E.Disk K.Opened ⟦<Mirror<D, E, K> as Disk>⟧ from left right result }
    {
        Mirror::open_behind(left, right, from, &[])
    }

    /// Opens a mirror as [`Mirror::open`] does, if the first blocks of the disk on the side `from` were read already. These are
    /// written to the other one and not read again. `K` has the counts of both disks as they were then, or before.
    pub fn open_behind(
        left: D,
        right: E,
        from: Side,
        first: &[Block],
    ) -> Result<Mirror<D, E, K>, MirrorFailed<D, E>>
        requires left_faults { K.left_faults ≤ D.faults left }
        requires right_faults { K.right_faults ≤ E.faults right }
        requires left_unknown { K.left_out ≡ None }
        requires right_unknown { K.right_out ≡ None }
        requires left_first { from ≡ Side.Left → ForSome (D.seen left) (HasBlocks 0 first.now) }
        requires right_first { from ≡ Side.Right → ForSome (E.seen right) (HasBlocks 0 first.now) }
        requires left_long { length first.now ≤ D.block_count left }
        requires right_long { length first.now ≤ E.block_count right }
        ensures opens { Opens D.Disk E.Disk K.Opened ⟦<Mirror<D, E, K> as Disk>⟧ from left right result }
    {
        let (mut left, mut right) = (left, right);
        let blocks = left.blocks().min(right.blocks());
        let alone = match copy_side(&mut left, &mut right, from, blocks, first) {
            Ok(true) => None,
            Ok(false) => Some(from),
            Err(_) => return Err(MirrorFailed { left, right }),
        };
        Ok(Mirror {
            left,
            right,
            blocks,
            alone,
            count: FaultCount::new(),
            of: PhantomData,
        })
    }

    /// The same mirror, with more known of it: a side that stands alone, and the other disk. What is known stays so.
    pub fn known<J: Opened<D, E>>(self) -> Mirror<D, E, J>
        requires left_faults { J.left_faults ≡ K.left_faults }
        requires right_faults { J.right_faults ≡ K.right_faults }
        requires left_out { ForSome J.left_out (λ d. (self.alone ≡ Some Side.Right) × (self.left ≡ d)) }
        requires right_out { ForSome J.right_out (λ e. (self.alone ≡ Some Side.Left) × (self.right ≡ e)) }
        ensures left { result.left ≡ self.left }
        ensures right { result.right ≡ self.right }
        ensures blocks { result.blocks ≡ self.blocks }
        ensures alone { result.alone ≡ self.alone }
        ensures count { result.count ≡ self.count }
    {
        Mirror {
            left: self.left,
            right: self.right,
            blocks: self.blocks,
            alone: self.alone,
            count: self.count,
            of: PhantomData,
        }
    }

    /// Both disks, as they are. If the mirror's own count is above 0, the counts of both rose since opening began.
    pub fn sides(self) -> (D, E)
        ensures left { result.0 ≡ self.left }
        ensures right { result.1 ≡ self.right }
        ensures left_count { K.left_faults ≤ D.faults result.0 }
        ensures right_count { K.right_faults ≤ E.faults result.1 }
        ensures left_out { ForSome K.left_out (λ d. result.0 ≡ d) }
        ensures right_out { ForSome K.right_out (λ e. result.1 ≡ e) }
        ensures cause { 0 < ⟦<Mirror<D, E, K> as Disk>⟧.faults self → BothRose K.left_faults (D.faults result.0) (D.is_spent result.0) K.right_faults (E.faults result.1) (E.is_spent result.1) }
    {
        (self.left, self.right)
    }

    /// The one side in use, or none while both are. It is one only if the count of the other rose since opening began.
    pub fn alone(&self) -> Option<Side>
        ensures alone { result ≡ self.now.alone }
        ensures right_cause { result ≡ Some Side.Left → RoseFrom K.right_faults (E.faults self.now.right) (E.is_spent self.now.right) }
        ensures left_cause { result ≡ Some Side.Right → RoseFrom K.left_faults (D.faults self.now.left) (D.is_spent self.now.left) }
    {
        self.alone
    }
}

impl<D: Disk, E: Disk, K: Opened<D, E>> Disk for Mirror<D, E, K> {
    ghost block_count = { λ m. m.blocks };

    ghost seen = { λ m. seen_of m.blocks m.alone (D.seen m.left) (E.seen m.right) };

    ghost tells_stops = { λ m. D.tells_stops m.left && E.tells_stops m.right };

    ghost time = { λ m. two_times m.blocks m.alone (D.tells_stops m.left && E.tells_stops m.right) (D.time m.left) (E.time m.right) };

    ghost faults = { λ m. m.count };

    ghost is_spent = { λ m. is_last m.count };

    ghost now_has_been = { λ m. been_now m.blocks (D.tells_stops m.left && E.tells_stops m.right) (D.time m.left) (E.time m.right) m.alone (D.now_has_been m.left) (E.now_has_been m.right) };

    ghost counts_now = { λ m. counted_now m.blocks (D.tells_stops m.left && E.tells_stops m.right) (D.time m.left) (E.time m.right) m.alone (D.counts_now m.left) (E.counts_now m.right) };

    ghost seen_may_stay = { λ m. seen_stays m.blocks (D.tells_stops m.left && E.tells_stops m.right) (D.time m.left) (E.time m.right) m.alone (D.seen m.left) (E.seen m.right)
        (λ t. D.seen_may_stay m.left (and_left (D.tells_stops m.left) (E.tells_stops m.right) t)) (λ t. E.seen_may_stay m.right (and_right (D.tells_stops m.left) (E.tells_stops m.right) t)) };

    ghost only_told = { λ m t c left. left.0 };

    ghost seen_count = { λ m. seen_long m.blocks (D.block_count m.left) (E.block_count m.right) m.alone (D.seen m.left) (E.seen m.right) m.left_long m.right_long (D.seen_count m.left) (E.seen_count m.right) };

    ghost seen_bytes = { λ m. seen_bytes m.blocks m.alone (D.seen m.left) (E.seen m.right) (D.seen_bytes m.left) (E.seen_bytes m.right) };

    fn blocks(&self) -> u64 {
        self.blocks
    }

    fn read(&mut self, i: u64, out: &mut Block) -> Result<(), Failed>
        requires in_range { i < ⟦<Mirror<D, E, K> as Disk>⟧.block_count self.old }
        ensures block { OnOk result (ForSome (⟦<Mirror<D, E, K> as Disk>⟧.seen self.old) (λ image. out.new ≡ block_at image i)) }
        ensures seen { ⟦<Mirror<D, E, K> as Disk>⟧.seen self.new ≡ ⟦<Mirror<D, E, K> as Disk>⟧.seen self.old }
        ensures stops { TimeGoes ⟦<Mirror<D, E, K> as Disk>⟧ self.old self.new no_image }
        ensures tells { ⟦<Mirror<D, E, K> as Disk>⟧.tells_stops self.new ≡ ⟦<Mirror<D, E, K> as Disk>⟧.tells_stops self.old }
        ensures calls { DiskCalls ⟦<Mirror<D, E, K> as Disk>⟧ self.old self.new result }
        ensures fails { FailsWithSides D.Disk E.Disk self.old.alone self.old.left self.new.left self.old.right self.new.right result }
        ensures sides { ReadsSides D.Disk self.old.alone self.new.alone self.old.left self.new.left self.old.right self.new.right }
    {
        match self.alone {
            None => match self.left.read(i, out) {
                Ok(()) => Ok(()),
                Err(_) => match self.right.read(i, out) {
                    Ok(()) => Ok(()),
                    Err(e) => {
                        self.count.raise();
                        Err(e)
                    }
                },
            },
            Some(Side::Left) => match self.left.read(i, out) {
                Ok(()) => Ok(()),
                Err(e) => {
                    self.count.raise();
                    Err(e)
                }
            },
            Some(Side::Right) => match self.right.read(i, out) {
                Ok(()) => Ok(()),
                Err(e) => {
                    self.count.raise();
                    Err(e)
                }
            },
        }
    }

    fn write(&mut self, i: u64, from: &Block) -> Result<(), Failed>
        requires in_range { i < ⟦<Mirror<D, E, K> as Disk>⟧.block_count self.old }
        ensures written { OnOk result (⟦<Mirror<D, E, K> as Disk>⟧.seen self.new ≡ option_map (λ image. slice_set image i from.now) (⟦<Mirror<D, E, K> as Disk>⟧.seen self.old)) }
        ensures unknown { OnErr result (SeenBut (only_place i) (⟦<Mirror<D, E, K> as Disk>⟧.seen self.old) (⟦<Mirror<D, E, K> as Disk>⟧.seen self.new)) }
        ensures stops { TimeGoes ⟦<Mirror<D, E, K> as Disk>⟧ self.old self.new (TornAt (only_place i) ((⟦<Mirror<D, E, K> as Disk>⟧.time self.old).left_since (⟦<Mirror<D, E, K> as Disk>⟧.time self.old).moment)) }
        ensures tells { ⟦<Mirror<D, E, K> as Disk>⟧.tells_stops self.new ≡ ⟦<Mirror<D, E, K> as Disk>⟧.tells_stops self.old }
        ensures calls { DiskCalls ⟦<Mirror<D, E, K> as Disk>⟧ self.old self.new result }
        ensures fails { FailsWithSides D.Disk E.Disk self.old.alone self.old.left self.new.left self.old.right self.new.right result }
        ensures sides { DropsSides D.Disk E.Disk self.old.alone self.new.alone self.old.left self.new.left self.old.right self.new.right result }
    {
        match self.alone {
            None => {
                let (left, right) = write_both(&mut self.left, &mut self.right, i, from);
                match (left, right) {
                    (Ok(()), Ok(())) => Ok(()),
                    (Ok(()), Err(_)) => {
                        self.alone = Some(Side::Left);
                        Ok(())
                    }
                    (Err(_), Ok(())) => {
                        self.alone = Some(Side::Right);
                        Ok(())
                    }
                    (Err(_), Err(e)) => {
                        self.alone = Some(Side::Left);
                        self.count.raise();
                        Err(e)
                    }
                }
            }
            Some(Side::Left) => match self.left.write(i, from) {
                Ok(()) => Ok(()),
                Err(e) => {
                    self.count.raise();
                    Err(e)
                }
            },
            Some(Side::Right) => match self.right.write(i, from) {
                Ok(()) => Ok(()),
                Err(e) => {
                    self.count.raise();
                    Err(e)
                }
            },
        }
    }

    /// The left side gives all of them, or the right one if a call of the left one failed in them.
    fn read_blocks(&mut self, first: u64, out: &mut [Block]) -> Result<(), Failed>
        requires in_range { first + length out.old ≤ ⟦<Mirror<D, E, K> as Disk>⟧.block_count self.old }
        ensures read { OnOk result (ForSome (⟦<Mirror<D, E, K> as Disk>⟧.seen self.old) (HasBlocks first out.new)) }
        ensures same_length { length out.new ≡ length out.old }
        ensures seen { ⟦<Mirror<D, E, K> as Disk>⟧.seen self.new ≡ ⟦<Mirror<D, E, K> as Disk>⟧.seen self.old }
        ensures stops { TimeGoes ⟦<Mirror<D, E, K> as Disk>⟧ self.old self.new no_image }
        ensures tells { ⟦<Mirror<D, E, K> as Disk>⟧.tells_stops self.new ≡ ⟦<Mirror<D, E, K> as Disk>⟧.tells_stops self.old }
        ensures calls { DiskCalls ⟦<Mirror<D, E, K> as Disk>⟧ self.old self.new result }
        ensures fails { FailsWithSides D.Disk E.Disk self.old.alone self.old.left self.new.left self.old.right self.new.right result }
        ensures sides { ReadsSides D.Disk self.old.alone self.new.alone self.old.left self.new.left self.old.right self.new.right }
    {
        match self.alone {
            None => match self.left.read_blocks(first, out) {
                Ok(()) => Ok(()),
                Err(_) => match self.right.read_blocks(first, out) {
                    Ok(()) => Ok(()),
                    Err(e) => {
                        self.count.raise();
                        Err(e)
                    }
                },
            },
            Some(Side::Left) => match self.left.read_blocks(first, out) {
                Ok(()) => Ok(()),
                Err(e) => {
                    self.count.raise();
                    Err(e)
                }
            },
            Some(Side::Right) => match self.right.read_blocks(first, out) {
                Ok(()) => Ok(()),
                Err(e) => {
                    self.count.raise();
                    Err(e)
                }
            },
        }
    }

    /// Each side in use writes all of them.
    fn write_blocks(&mut self, first: u64, from: &[Block]) -> Result<(), Failed>
        requires in_range { first + length from.now ≤ ⟦<Mirror<D, E, K> as Disk>⟧.block_count self.old }
        ensures written { OnOk result (ForSome (⟦<Mirror<D, E, K> as Disk>⟧.seen self.new) (HasBlocks first from.now)) }
        ensures unknown { SeenBut (InRange first (length from.now)) (⟦<Mirror<D, E, K> as Disk>⟧.seen self.old) (⟦<Mirror<D, E, K> as Disk>⟧.seen self.new) }
        ensures stops { TimeGoes ⟦<Mirror<D, E, K> as Disk>⟧ self.old self.new
            (TornAt (InRange first (length from.now)) ((⟦<Mirror<D, E, K> as Disk>⟧.time self.old).left_since (⟦<Mirror<D, E, K> as Disk>⟧.time self.old).moment)) }
        ensures tells { ⟦<Mirror<D, E, K> as Disk>⟧.tells_stops self.new ≡ ⟦<Mirror<D, E, K> as Disk>⟧.tells_stops self.old }
        ensures calls { DiskCalls ⟦<Mirror<D, E, K> as Disk>⟧ self.old self.new result }
        ensures fails { FailsWithSides D.Disk E.Disk self.old.alone self.old.left self.new.left self.old.right self.new.right result }
        ensures sides { DropsSides D.Disk E.Disk self.old.alone self.new.alone self.old.left self.new.left self.old.right self.new.right result }
    {
        match self.alone {
            None => {
                let left = self.left.write_blocks(first, from);
                let right = self.right.write_blocks(first, from);
                match (left, right) {
                    (Ok(()), Ok(())) => Ok(()),
                    (Ok(()), Err(_)) => {
                        self.alone = Some(Side::Left);
                        Ok(())
                    }
                    (Err(_), Ok(())) => {
                        self.alone = Some(Side::Right);
                        Ok(())
                    }
                    (Err(_), Err(e)) => {
                        self.alone = Some(Side::Left);
                        self.count.raise();
                        Err(e)
                    }
                }
            }
            Some(Side::Left) => match self.left.write_blocks(first, from) {
                Ok(()) => Ok(()),
                Err(e) => {
                    self.count.raise();
                    Err(e)
                }
            },
            Some(Side::Right) => match self.right.write_blocks(first, from) {
                Ok(()) => Ok(()),
                Err(e) => {
                    self.count.raise();
                    Err(e)
                }
            },
        }
    }

    fn sync(&mut self) -> Result<(), Failed>
        ensures meets { IsSync ⟦<Mirror<D, E, K> as Disk>⟧ self.old self.new result }
        ensures fails { FailsWithSides D.Disk E.Disk self.old.alone self.old.left self.new.left self.old.right self.new.right result }
        ensures sides { DropsSides D.Disk E.Disk self.old.alone self.new.alone self.old.left self.new.left self.old.right self.new.right result }
    {
        match self.alone {
            None => {
                let left = self.left.sync();
                let right = self.right.sync();
                match (left, right) {
                    (Ok(()), Ok(())) => Ok(()),
                    (Ok(()), Err(_)) => {
                        self.alone = Some(Side::Left);
                        Ok(())
                    }
                    (Err(_), Ok(())) => {
                        self.alone = Some(Side::Right);
                        Ok(())
                    }
                    (Err(_), Err(e)) => {
                        self.alone = Some(Side::Left);
                        self.count.raise();
                        Err(e)
                    }
                }
            }
            Some(Side::Left) => match self.left.sync() {
                Ok(()) => Ok(()),
                Err(e) => {
                    self.count.raise();
                    Err(e)
                }
            },
            Some(Side::Right) => match self.right.sync() {
                Ok(()) => Ok(()),
                Err(e) => {
                    self.count.raise();
                    Err(e)
                }
            },
        }
    }
}

/// Writes a block on both disks, whatever the first one answers.
fn write_both<D: Disk, E: Disk>(
    left: &mut D,
    right: &mut E,
    i: u64,
    from: &Block,
) -> (Result<(), Failed>, Result<(), Failed>)
    requires left_range { i < D.block_count left.old }
    requires right_range { i < E.block_count right.old }
    ensures on_left { IsWrite D.Disk left.old left.new i from.now result.0 }
    ensures on_right { IsWrite E.Disk right.old right.new i from.now result.1 }
{
    let on_left = left.write(i, from);
    let on_right = right.write(i, from);
    (on_left, on_right)
}
