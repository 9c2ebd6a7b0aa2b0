// What is held of a volume while it is shown.
ghost use Rattle.std.specs.Prelude.{◌≡◌, ◌<◌, ◌≤◌, HoldsAt, IfSome, length};
ghost use Rattle.mg_rules.specs.RowsRead.{AreKept};
ghost use Rattle.mg_model.specs.Layout.{total_blocks};
ghost use Rattle.mg_objects.specs.Held.{objects_in};
ghost use Rattle.mg_space.specs.Space.{ArePaid};

use mg_bank::Bank;
use mg_check::VolumeRows;
use mg_frames::Frames;
use mg_journal::View;
use mg_model::{Globals, ObjRow, Params, ThrRow};
use mg_space::Space;
use std::alloc::Global;

/// A volume that is shown.
#[derive(Drop)]
pub(crate) struct Shown {
    pub(crate) params: Params,
    pub(crate) counters: Globals,
    /// Its threads, each with the place before its number.
    pub(crate) threads: Vec<(u64, ThrRow)>,
    /// Its objects, in the order of their bases.
    pub(crate) objects: Space,
    /// Its accounts, and the pages for which each pays.
    pub(crate) bank: Bank,
    /// The page that each frame holds.
    pub(crate) frames: Frames,
    /// Its blocks, as the journal gives them.
    pub(crate) view: View,
    ghost at_least_16_frames: { 16 ≤ length frames },
    ghost total: { view.total ≡ total_blocks (length frames) },
}

impl Shown {
    /// How many objects it has.
    pub(crate) fn count(&self) -> usize
        ensures { result ≡ length self.now.objects }
    {
        self.objects.objects().len()
    }

    /// The object of this rank in the order of the bases, 0 for the first.
    pub(crate) fn row(&self, i: usize) -> &ObjRow
        requires { i < length self.now.objects }
        ensures { HoldsAt (λ o. result.now ≡ o.1) self.now.objects i }
    {
        self.objects.objects().nth_ref(i)
    }
}

/// The volume that these rows spell. None if there is not enough memory.
#[tactic(auto, using(crate::proofs::RowsKept::distinct_kept))]
pub(crate) fn shown_of(alloc: Global, rows: VolumeRows, view: View) -> Option<Shown>
    requires kept { AreKept rows }
    requires total { view.total ≡ total_blocks rows.params.frames }
    ensures params { IfSome result (λ shown. shown.params ≡ rows.params) }
    ensures counters { IfSome result (λ shown. shown.counters ≡ rows.globals) }
    ensures threads { IfSome result (λ shown. shown.threads.items ≡ rows.threads.items) }
    ensures objects { IfSome result (λ shown. shown.objects ≡ objects_in rows.objects.items) }
    ensures accounts { IfSome result (λ shown. shown.bank.accounts ≡ rows.accounts.items) }
    ensures paid { IfSome result (λ shown. ArePaid shown.bank.pages shown.objects) }
    ensures frames { IfSome result (λ shown. shown.frames ≡ rows.table.items) }
    ensures view { IfSome result (λ shown. shown.view ≡ view) }
{
    rows.params.keep_rules();
    let VolumeRows {
        params,
        globals: counters,
        accounts,
        threads,
        objects,
        table,
    } = rows;
    let Some(frames) = Frames::of(alloc, table).ok()? else {
        unreachable!()
    };
    let mut bank = Bank::of(alloc, accounts).ok()?;
    let Some(objects) = Space::of(alloc, objects).ok()? else {
        unreachable!()
    };
    objects.bill(&mut bank);
    Some(Shown {
        params,
        counters,
        threads,
        objects,
        bank,
        frames,
        view,
    })
}
