// What images spell: laws on the definitions, each a clause. The call does nothing.
ghost use Rattle.mg_layout.specs.Laws.{ClosedIsNone, FreshIsFresh, HigherIsDamaged, LowerIsOld, OverfullIsDamaged};

/// A fresh image spells the fresh state of its settings. One with a closed gate is no volume, one of a lower version is
/// old, one of a higher version is damaged, and so is one whose open segment says that it has more than 160 bodies.
pub fn images_are_read()
    ensures fresh { FreshIsFresh }
    ensures closed { ClosedIsNone }
    ensures lower { LowerIsOld }
    ensures higher { HigherIsDamaged }
    ensures overfull { OverfullIsDamaged }
{}
