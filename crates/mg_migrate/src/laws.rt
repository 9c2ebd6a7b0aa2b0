// What is true of volumes of version 1 and of what they become.
ghost use Rattle.mg_migrate.specs.Laws.{AreSizes, LiftedIsLift, LiftedIsReplayed, LiftedIsVolume, LiftedKeepsPlaces, ReplayedIsVolume1};

/// The image that a volume of version 1 is copied to spells the lifted state, and is damaged if there is none. Its rows and
/// frames keep their numbers. It does nothing.
pub fn lifted_images_spell_the_lifted_state()
    ensures sizes { AreSizes }
    ensures replayed { LiftedIsReplayed }
    ensures places { LiftedKeepsPlaces }
    ensures lift { LiftedIsLift }
    ensures volume { LiftedIsVolume }
    ensures old { ReplayedIsVolume1 }
{}
