// Laws on the keys that are kept, and on the counter of words.
ghost use Rattle.mg_model.specs.Kept.{KeepsWarm, Searches, line_limit, searches_limit};
ghost use Rattle.mg_model.specs.Warmth.{cost, cost_behind, is_recent};
ghost use Rattle.mg_model.specs.Events.{TellsTaken, events};
ghost use Rattle.mg_laws.specs.Costs.{BeginsWarm, BoundedByCost, CostsAddUp, CostsGoOn, EventsGoOn, LimitGoesOn, LimitsWithinCost, PrefixesCostLess, RulesGoOn, SearchesGoOn, SearchesKeepRules, StaysWarm};

/// Accesses one after another keep the rules of a line, if each of them keeps its own key and leaves the keys of other
/// seats. The rules: a key stays kept unless another takes its seat, the last key that took a seat is kept, and no word is
/// searched for an access whose key was kept before the line and whose seat no other key took in it.
pub fn accesses_keep_the_rules_of_a_line()
    ensures kept { SearchesKeepRules Searches }
    ensures more { SearchesGoOn Searches }
{}

/// An access, and then more accesses that keep the rules of a line, or only its limit: together they keep the same.
pub fn accesses_go_on()
    ensures rules { RulesGoOn }
    ensures limit { LimitGoesOn searches_limit }
{}

/// A key is recent exactly if an earlier line took it, nothing disturbed since, and no other key took its seat since.
pub fn recent_keys_were_taken()
    ensures { TellsTaken is_recent }
{}

/// Lines one after another, each within its limit and keeping its keys, raise the counter by at most their cost.
pub fn lines_cost_no_more()
    ensures { BoundedByCost cost }
{}

/// After the lines of a session each key is kept that would be warm: at its beginning, whatever is kept, and after each line
/// more. So the limit of the next line is within its cost.
pub fn warm_keys_are_kept()
    ensures begins { BeginsWarm KeepsWarm }
    ensures stays { StaysWarm KeepsWarm }
    ensures limit { LimitsWithinCost line_limit }
{}

/// The costs of lines add up, from the first on, and so do the events before them.
pub fn costs_add_up()
    ensures events { EventsGoOn events }
    ensures appended { CostsAddUp cost_behind }
    ensures line { CostsGoOn cost }
    ensures prefix { PrefixesCostLess cost }
{}
