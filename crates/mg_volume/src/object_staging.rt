// Objects of a volume that are staged.
ghost use Rattle.std.specs.Prelude.{List, ◌≡◌, ◌⊎◌, ◌≤◌, ◌<◌, ◌==◌, ℕ, true, find, IfSome, MatchOption, Some};
ghost use Rattle.std.specs.Option.{option_map_or};
ghost use Rattle.mg_model.specs.Layout.{body_limit};
ghost use Rattle.mg_model.specs.Objects.{with_object, with_row, without_object};
ghost use Rattle.mg_model.specs.State.{ObjectRow};
ghost use Rattle.mg_volume.specs.Calls.{Stages};
ghost use Rattle.mg_volume.specs.Meaning.{now_of, objects_in, settings_in, staged_of};
ghost use Rattle.mg_volume.specs.RowLists.{DistinctBy};
ghost use Rattle.mg_volume.specs.Staging.{MayChange, MayJoin, MayStage, ObjectsStillStaged, blank, has_base, is_object_staged, objects_with, rows_with, with_new_row, with_other_row, without_row};

use crate::object_block::stage_row;
use crate::object_removing::{release_object, take_object};
use crate::volume::Volume;
use mg_model::ObjRow;

#[tactic(auto, unfolding(crate::specs::Meaning::settings_in, crate::specs::Meaning::counters_in, crate::specs::Meaning::objects_in, crate::specs::Meaning::accounts_in, crate::specs::Meaning::threads_in, crate::specs::Meaning::now_of, crate::specs::Meaning::staged_of, crate::specs::Meaning::is_live, crate::specs::Meaning::total_of, crate::specs::Meaning::words_in))]
impl Volume {
    // No two objects have one base, as in each volume.
    pub(crate) fn bases_differ(&self)
        ensures { DistinctBy (λ row. row.base) (objects_in self.now) }
    {
        let _objects = &self.objects;
    }

    /// Stages the row of the object with this base: in place of its row, with as many pages; the row of a new object, whose
    /// words are all 0, if none has the base ([`Volume::insert`] says what it requires); or that there is no such object any more. At
    /// most 30 blocks are staged if it goes, and at most 129 more then; else its block is staged already, or fewer than 160
    /// are, and one more is at most.
    ///
    /// A caller that knows which of the three it is calls [`Volume::change`], [`Volume::insert`] or [`Volume::remove`], which look
    /// for no base first.
    pub fn stage_object(&mut self, base: u64, row: Option<ObjRow>)
        requires may { MayStage (objects_in self.old) (settings_in self.old).frames base row }
        requires room { MatchOption row (staged_of self.old ≤ 30) (λ _. (is_object_staged self.old base ≡ true) ⊎ (staged_of self.old < body_limit)) }
        ensures now { (image : List (List ℕ)) → now_of self.new image ≡ record (now_of self.old image) { objects = objects_with base row (now_of self.old image).objects } }
        ensures rows { objects_in self.new ≡ rows_with base row (objects_in self.old) }
        ensures stages { Stages (option_map_or (λ _. 1) row 129) self.old self.new }
        ensures objects { ObjectsStillStaged self.old self.new }
        ensures here { IfSome row (λ _. is_object_staged self.new base ≡ true) }
    {
        match row {
            Some(row) => self.put(row),
            None => self.remove(base),
        }
    }

    // Stages the row of an object that is there or new.
    fn put(&mut self, row: ObjRow)
        requires may { MayStage (objects_in self.old) (settings_in self.old).frames row.base (Some row) }
        requires staged_or_fewer_than_160 { (is_object_staged self.old row.base ≡ true) ⊎ (staged_of self.old < body_limit) }
        ensures now { (image : List (List ℕ)) → now_of self.new image ≡ record (now_of self.old image) { objects = objects_with row.base (Some row) (now_of self.old image).objects } }
        ensures rows { objects_in self.new ≡ rows_with row.base (Some row) (objects_in self.old) }
        ensures stages { Stages 1 self.old self.new }
        ensures objects { ObjectsStillStaged self.old self.new }
        ensures here { is_object_staged self.new row.base ≡ true }
    {
        if self.has(row.base()) {
            self.change(row);
        } else {
            self.insert(row);
        }
    }

    // Whether there is an object with this base.
    fn has(&self, base: u64) -> bool
        ensures { result ≡ has_base base (objects_in self.now) }
    {
        self.object(base).is_some()
    }

    /// Stages another row of an object that is there, with as many pages. Its block is staged already, or fewer than 160 are;
    /// one more is at most. The state is what any change gives that turns the old row into this one.
    pub fn change(&mut self, row: ObjRow)
        requires change { MayChange (objects_in self.old) row }
        requires staged_or_fewer_than_160 { (is_object_staged self.old row.base ≡ true) ⊎ (staged_of self.old < body_limit) }
        ensures now { (change : ObjectRow → ObjectRow) → IfSome (find (λ old. old.base == row.base) (objects_in self.old)) (λ old. change old ≡ row)
            → (image : List (List ℕ)) → now_of self.new image ≡ record (now_of self.old image) { objects = with_row row.base change (now_of self.old image).objects } }
        ensures rows { objects_in self.new ≡ with_other_row row (objects_in self.old) }
        ensures stages { Stages 1 self.old self.new }
        ensures objects { ObjectsStillStaged self.old self.new }
        ensures here { is_object_staged self.new row.base ≡ true }
    {
        let place = self.objects.update(row, &mut self.bank);
        stage_row(&mut self.pages, &self.objects, place);
    }

    /// Stages a new object, whose words are all 0, in the first row that is free. It meets none of the others, there are fewer
    /// than 4,096 of them, and the pages of all together are no more than there are frames. The block of that row is staged
    /// already, or fewer than 160 are; one more is at most.
    pub fn insert(&mut self, row: ObjRow)
        requires join { MayJoin (objects_in self.old) (settings_in self.old).frames row }
        requires staged_or_fewer_than_160 { (is_object_staged self.old row.base ≡ true) ⊎ (staged_of self.old < body_limit) }
        ensures now { (image : List (List ℕ)) → now_of self.new image ≡ record (now_of self.old image) { objects = with_object (blank row) (now_of self.old image).objects } }
        ensures rows { objects_in self.new ≡ with_new_row row (objects_in self.old) }
        ensures stages { Stages 1 self.old self.new }
        ensures objects { ObjectsStillStaged self.old self.new }
        ensures here { is_object_staged self.new row.base ≡ true }
    {
        let place = self.objects.insert(row, &mut self.bank);
        stage_row(&mut self.pages, &self.objects, place);
    }

    /// Stages that there is no object with this base any more. Its pages read as zeros, should an object have them again. At
    /// most 30 blocks are staged, and at most 129 more then.
    pub fn remove(&mut self, base: u64)
        requires there { has_base base (objects_in self.old) ≡ true }
        requires at_most_30_staged { staged_of self.old ≤ 30 }
        ensures now { (image : List (List ℕ)) → now_of self.new image ≡ record (now_of self.old image) { objects = without_object base (now_of self.old image).objects } }
        ensures rows { objects_in self.new ≡ without_row base (objects_in self.old) }
        ensures stages { Stages 129 self.old self.new }
        ensures objects { ObjectsStillStaged self.old self.new }
    {
        let taken = take_object(&mut self.objects, &mut self.bank, &mut self.pages, base);
        release_object(&mut self.pages, &taken.1);
    }
}
