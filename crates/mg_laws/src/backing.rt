// Laws on what the seats of the validation cache rest on.
ghost use Rattle.mg_laws.specs.Backing.{AllowedIsBacked, BackedAllows, BackingRestsOnDomain, CallsKeepBacked, ChangeKeepsOthers, EndsOneList, FramesKeepBacked, GoneKeepsOthers, OpeningBacks, StepsKeepBacked};
ghost use Rattle.mg_model.specs.Access.{allowed};
ghost use Rattle.mg_model.specs.Step.{step};
ghost use Rattle.mg_model.specs.Turn.{thread_call};

/// A line leaves each seat backed that was backed, except those that it ends. This covers all calls, turns of any word,
/// `next` and `rent`. The same holds for each call, made by a line or by a script.
pub fn steps_keep_backing()
    ensures steps { StepsKeepBacked (λ state line. (step state line).0) }
    ensures calls { CallsKeepBacked (λ state t made. (thread_call state t made).0) }
{}

/// A seat is backed exactly if its thread may reach its object with its right by its list. If it is backed, the access is
/// allowed at each address of the object. Each access that is allowed is backed by the list of some slot.
pub fn backed_seats_are_allowed()
    ensures allows { BackedAllows allowed }
    ensures backed { AllowedIsBacked allowed }
    ensures opened { OpeningBacks }
{}

/// A store to the first page of an object ends only seats that its list gave or that are for it, and a store past that page
/// ends none.
pub fn stores_end_one_list()
    ensures { EndsOneList }
{}

/// Whether a seat is backed rests on the objects, the period and the slots of its thread's present frame alone. So a
/// thread's row may change in everything but its frames.
pub fn backing_rests_on_the_domain()
    ensures rests { BackingRestsOnDomain }
    ensures frames { FramesKeepBacked }
{}

/// If an object goes, or its row changes but keeps its base, only the seats end that its list gave or that are for it. This
/// holds for every state, whoever may reach the object.
pub fn objects_end_their_own_seats()
    ensures gone { GoneKeepsOthers }
    ensures changed { ChangeKeepsOthers }
{}
