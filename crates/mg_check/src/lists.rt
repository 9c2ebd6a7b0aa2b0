// Lists of rows that are being read.
ghost use Rattle.std.specs.Prelude.{◌≡◌, ◌≢◌, ◌≤◌, ◌++◌, ◌∷◌, [], IfOk, OnOk, vec_capacity};

use mg_journal::ViewFault;
use std::alloc::Global;

/// An empty list with room for `count` items.
pub(crate) fn with_room<T>(alloc: Global, count: usize) -> Result<Vec<T>, ViewFault>
    ensures none { IfOk result (λ list. list.items ≡ []) }
    ensures has_capacity { IfOk result (λ list. count ≤ vec_capacity list) }
    ensures memory { result ≢ Err ViewFault.Damaged }
    ensures no_disk { result ≢ Err ViewFault.Disk }
{
    match Vec::with_capacity(alloc, count) {
        Ok(list) => Ok(list),
        Err(_) => Err(ViewFault::Memory),
    }
}

/// Adds an item after the others.
pub(crate) fn add<T: Drop>(list: &mut Vec<T>, last: T) -> Result<(), ViewFault>
    ensures more { OnOk result (list.new.items ≡ list.old.items ++ last ∷ []) }
    ensures keeps_capacity { vec_capacity list.old ≤ vec_capacity list.new }
    ensures memory { result ≢ Err ViewFault.Damaged }
    ensures no_disk { result ≢ Err ViewFault.Disk }
{
    match list.push(last) {
        Ok(()) => Ok(()),
        Err(_) => Err(ViewFault::Memory),
    }
}
