// Objects are made, and unmade.
ghost use Rattle.std.specs.Prelude.{◌≡◌, ◌≤◌, ◌==◌, find, Some};
ghost use Rattle.mg_calls_obj.specs.Based.{KeepsOthers};
ghost use Rattle.mg_vcache.specs.Drops.{Drops};
ghost use Rattle.mg_model.specs.Backed.{by_via};
ghost use Rattle.mg_model.specs.ObjectCalls as calls;
ghost use Rattle.mg_volume.specs.Calls.{Acts, CallStages};
ghost use Rattle.mg_volume.specs.Meaning.{objects_in, staged_of};

use mg_laws::objects_end_their_own_seats;
use mg_model::{ObjRow, Reply, Right};
use mg_vcache::VCache;
use mg_volume::Volume;

/// An object goes, and its pages read as zeros, should another object have them. All rights that were found for it or in it
/// end.
pub(crate) fn delete_by_row(volume: &mut Volume, cache: &mut VCache, object: ObjRow) -> Reply
    requires held { find (λ row. row.base == object.base) (objects_in volume.old) ≡ Some object }
    requires at_most_30_staged { staged_of volume.old ≤ 30 }
    ensures does { CallStages (Acts (λ state t a. calls.delete state t a) Right.D object) 129 volume.old volume.new result }
    ensures seats { Drops (by_via object.base) cache.old cache.new result }
    ensures others { KeepsOthers object.base volume.old volume.new }
{
    objects_end_their_own_seats();
    let base = object.base();
    volume.remove(base);
    cache.drop_via(base);
    Reply::Done
}
