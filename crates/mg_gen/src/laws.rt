// Laws of the lines, and of the counts.
ghost use Rattle.mg_gen.specs.Asked.{LinesAreCalls, PasswordsAreDrawn};
ghost use Rattle.mg_gen.specs.Tallies.{CountsAddUp, CountsAreTold, WordsAreInRows};

/// Each line of each run spells the call that the definition names beside it. So each is answered, and none is Bad.
pub fn lines_are_calls()
    ensures { LinesAreCalls }
{}

/// The passwords in the lines, which the seed of the run's machine draws from the second on, are the numbers that the definition names.
pub fn passwords_are_drawn()
    ensures { PasswordsAreDrawn }
{}

/// The counts of a tally add up to the number of the replies that were counted, and each refusal's word is printed beside
/// its count. So a tally prints the summary of the replies.
pub fn counts_add_up()
    ensures sum { CountsAddUp }
    ensures words { WordsAreInRows }
    ensures text { CountsAreTold }
{}
