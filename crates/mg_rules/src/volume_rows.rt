// The rows of a volume.
ghost use Rattle.std.specs.Prelude.{◌≡◌, IfOk};
ghost use Rattle.mg_rules.specs.RowsRead.{AreHeld};
ghost use Rattle.mg_rules.specs.Rules.{Decides};

use crate::soundness::{accounts_fit, objects_fit, spans, table_fits, threads_fit};
use mg_model::{AccRow, Globals, ObjRow, Params, ThrRow};
use std::alloc::{AllocError, Global};

/// The rows of a volume and its frame table, as they were read.
#[derive(Drop)]
pub struct VolumeRows {
    /// What the volume was made with.
    pub params: Params,
    /// The period and the other counters.
    pub globals: Globals,
    /// Its accounts, at most 1,024: account n is at place n - 1. There is room for all.
    pub accounts: Vec<AccRow>,
    /// Its threads, at most 256, each with the place of its row: thread n has place n - 1. There is room for all.
    pub threads: Vec<(u64, ThrRow)>,
    /// The table of its objects, a row or none in each place up to the last that has one.
    pub objects: Vec<Option<ObjRow>>,
    /// The page that each frame holds, 0 if it holds none.
    pub table: Vec<u64>,
}

impl VolumeRows {
    /// Whether the rows keep the rules between each other.
    pub fn fit(&self, alloc: Global) -> Result<bool, AllocError>
        requires held { AreHeld self.now }
        ensures { IfOk result (λ fit. Decides fit self.now) }
    {
        if !accounts_fit(&self.accounts, self.params.credits(), &self.globals) {
            return Ok(false);
        }
        let spans = spans(alloc, &self.objects)?;
        let accounts = self.accounts.len() as u64;
        if !objects_fit(&self.objects, &spans, self.params.frames(), accounts) {
            return Ok(false);
        }
        if !threads_fit(alloc, &self.threads, self.globals.births())? {
            return Ok(false);
        }
        table_fits(alloc, &self.table, &spans)
    }
}
