//! Sessions of the machine that `mg_model` defines, computed: each clause is a theorem that these lines get these replies.
//!
//! The sessions are in `specs/`, each line beside its reply. The replies were worked out by hand from the rules of the
//! calls, and a check of this crate computes the definition on each. No other crate depends on this one.
#![tactic(auto)]

ghost use Rattle.std.specs.Prelude.{◌≡◌, [], ◌∷◌, codes};
ghost use Rattle.mg_model.specs.Draw.{password_drawn};
ghost use Rattle.mg_model.specs.Fresh.{fresh};
ghost use Rattle.mg_model.specs.Lines.{lines};
ghost use Rattle.mg_model.specs.Print.{replies_text};
ghost use Rattle.mg_worked.specs.Access.{alignment_first, creator_has_no_capability, domain_locks_itself_out, first_line, large_count_is_cut, lowest_pages_are_taken, new_object_reads_zeros, revocation_acts_at_once, slot_needs_its_right, stored_capability_reads};
ghost use Rattle.mg_worked.specs.Rights.{all_frames_are_taken, each_right_alone, each_right_is_needed, edges_of_an_object, rights_by_their_bits};
ghost use Rattle.mg_worked.specs.Domains.{domain_ends_with_its_frame, eight_slots, entry_is_there_once, sixteen_frames};
ghost use Rattle.mg_worked.specs.Scripts.{creators_are_births, script_asks_for_a_balance, script_sees_a_refusal, store_into_a_list};
ghost use Rattle.mg_worked.specs.Instructions.{arithmetic_and_jumps, each_field_is_looked_at, scripts_enter_and_return, sums_wrap};
ghost use Rattle.mg_worked.specs.Calls.{calls_by_number, calls_that_are_none, refusals_by_number};
ghost use Rattle.mg_worked.specs.Accounts.{object_is_recharged, password_ends, rent_takes_what_is_there};
ghost use Rattle.mg_worked.specs.Refusals.{counted, full_root, last_password, last_period, many_accounts, many_threads, many_threads_live, more_accounts, refusals, thirty_two_passwords};
ghost use Rattle.mg_worked.specs.Edges.{ended_in_its_turn, last_until, no_more_births, no_more_objects, no_more_passwords, sixteen_entries, slots_in_order, steps_of_the_tariff, too_many_pages, what_is_denied, who_pays, with_births, with_objects, without_until};
ghost use Rattle.mg_worked.specs.Users.{documents_and_mailbox};
ghost use Rattle.mg_worked.specs.Costs.{IsPaid, behind, calling_script, calls_on_an_object, calls_that_only_tell, delete_then, denied_twice, domain_and_back, entering_script, ext_then, far_object, faulting_scripts, info_twice, linked_threads, loading_script, making_script, one_key_twice, one_seat, one_seat_in_a_turn, owner_alone, pwadd_then, refused_between_loads, refused_calls, script_of_calls, short_script, six_rights_in_turn, sixth_right_is_kept, store_between_loads, stores_into_both_pages, storing_script, thread_then, turns_of_a_script, turns_that_call, turns_that_disturb, turns_that_enter, turns_that_fault, turns_that_load, turns_that_store, two_seats, words_of_one_object};
ghost use Rattle.mg_worked.specs.Forms.{blanks, forms, notes, notes_replies, numbers};
ghost use Rattle.mg_worked.specs.Drawn.{DrawsFirst};
ghost use Rattle.mg_worked.specs.Sessions.{IsAnswered, linked, small};

/// The passwords that a seed draws are the key stream of RFC 8439, eight bytes each.
pub fn passwords_are_a_key_stream()
    ensures { DrawsFirst password_drawn }
{}

/// Objects, capabilities and revocation.
pub fn sessions_on_access()
    ensures first_line { IsAnswered (fresh small) first_line }
    ensures creator_has_no_capability { IsAnswered (fresh small) creator_has_no_capability }
    ensures stored_capability_reads { IsAnswered (fresh small) stored_capability_reads }
    ensures large_count_is_cut { IsAnswered (fresh small) large_count_is_cut }
    ensures domain_locks_itself_out { IsAnswered (fresh small) domain_locks_itself_out }
    ensures alignment_first { IsAnswered (fresh small) alignment_first }
    ensures revocation_acts_at_once { IsAnswered (fresh small) revocation_acts_at_once }
    ensures new_object_reads_zeros { IsAnswered (fresh small) new_object_reads_zeros }
    ensures lowest_pages_are_taken { IsAnswered (fresh small) lowest_pages_are_taken }
{}

/// Which right lets a thread do what, and which addresses an object has.
pub fn sessions_on_rights()
    ensures each_right_is_needed { IsAnswered (fresh small) each_right_is_needed }
    ensures each_right_alone { IsAnswered (fresh small) each_right_alone }
    ensures slot_needs_its_right { IsAnswered (fresh small) slot_needs_its_right }
    ensures rights_by_their_bits { IsAnswered (fresh small) rights_by_their_bits }
    ensures edges_of_an_object { IsAnswered (fresh small) edges_of_an_object }
    ensures all_frames_are_taken { IsAnswered (fresh small) all_frames_are_taken }
{}

/// Protection domains and their extension.
pub fn sessions_on_domains()
    ensures sixteen_frames { IsAnswered (fresh small) sixteen_frames }
    ensures entry_is_there_once { IsAnswered (fresh small) entry_is_there_once }
    ensures domain_ends_with_its_frame { IsAnswered (fresh small) domain_ends_with_its_frame }
    ensures eight_slots { IsAnswered (fresh small) eight_slots }
{}

/// Threads and their scripts.
pub fn sessions_of_scripts()
    ensures store_into_a_list { IsAnswered (fresh small) store_into_a_list }
    ensures creators_are_births { IsAnswered (fresh small) creators_are_births }
    ensures script_asks_for_a_balance { IsAnswered (fresh small) script_asks_for_a_balance }
    ensures script_sees_a_refusal { IsAnswered (fresh small) script_sees_a_refusal }
{}

/// Every instruction, and words that are none.
pub fn sessions_of_instructions()
    ensures arithmetic_and_jumps { IsAnswered (fresh small) arithmetic_and_jumps }
    ensures sums_wrap { IsAnswered (fresh small) sums_wrap }
    ensures scripts_enter_and_return { IsAnswered (fresh small) scripts_enter_and_return }
    ensures each_field_is_looked_at { IsAnswered (fresh small) each_field_is_looked_at }
{}

/// Every call that a script can make, by its number, and what it can't make.
pub fn sessions_of_calls()
    ensures calls_by_number { IsAnswered (fresh small) calls_by_number }
    ensures calls_that_are_none { IsAnswered (fresh small) calls_that_are_none }
    ensures refusals_by_number { IsAnswered (full_root 31) refusals_by_number }
{}

/// Accounts, rent and passwords that end.
pub fn sessions_on_accounts()
    ensures rent_takes_what_is_there { IsAnswered (fresh small) rent_takes_what_is_there }
    ensures object_is_recharged { IsAnswered (fresh small) object_is_recharged }
    ensures password_ends { IsAnswered (fresh small) password_ends }
{}

/// Refusals, and limits at their edge.
pub fn sessions_of_refusals()
    ensures refusals { IsAnswered (fresh small) refusals }
    ensures last_period { IsAnswered (counted 2 16777214) last_period }
    ensures last_password { IsAnswered (counted 4294967295 0) last_password }
    ensures thirty_two_passwords { IsAnswered (full_root 30) thirty_two_passwords }
    ensures many_accounts { IsAnswered (more_accounts 1022) many_accounts }
    ensures many_threads_live { IsAnswered (many_threads 254) many_threads_live }
{}

/// Rows of the table of calls at their edges.
pub fn sessions_at_the_edges()
    ensures slots_in_order { IsAnswered (fresh small) slots_in_order }
    ensures sixteen_entries { IsAnswered (fresh small) sixteen_entries }
    ensures what_is_denied { IsAnswered (fresh small) what_is_denied }
    ensures who_pays { IsAnswered (fresh small) who_pays }
    ensures steps_of_the_tariff { IsAnswered (fresh small) steps_of_the_tariff }
    ensures ended_in_its_turn { IsAnswered (fresh small) ended_in_its_turn }
{}

/// What runs out: periods, passwords, objects, pages and births.
pub fn sessions_on_what_runs_out()
    ensures last_until { IsAnswered (counted 2 16777214) last_until }
    ensures without_until { IsAnswered (counted 2 16777214) without_until }
    ensures no_more_passwords { IsAnswered (counted 4294967296 0) no_more_passwords }
    ensures no_more_objects { IsAnswered (with_objects 4096) no_more_objects }
    ensures too_many_pages { IsAnswered (with_objects 4095) too_many_pages }
    ensures no_more_births { IsAnswered (with_births 4294967294) no_more_births }
{}

/// Documents, code and accounts of a user.
pub fn sessions_of_users()
    ensures { IsAnswered (fresh small) documents_and_mailbox }
{}

/// How lines are spelled.
pub fn sessions_of_forms()
    ensures numbers { IsAnswered (fresh small) numbers }
    ensures forms { IsAnswered (fresh small) forms }
    ensures blanks { IsAnswered (fresh small) blanks }
    ensures passed_over { replies_text (fresh small) (lines notes) ≡ notes_replies }
{}

/// What sessions may cost, in words: one for each that a line loads, stores or fetches, and 4,088 for each search.
pub fn sessions_and_their_costs()
    ensures words_of_one_object { IsPaid (fresh small) words_of_one_object 4090 }
    ensures store_between_loads { IsPaid (fresh small) store_between_loads 12267 }
    ensures info_twice { IsPaid (fresh small) info_twice 4088 }
    ensures refused_between_loads { IsPaid (fresh small) refused_between_loads 8178 }
    ensures turns_of_a_script { IsPaid (behind short_script) turns_of_a_script 4090 }
    ensures one_seat { IsPaid (behind linked_threads) one_seat 12267 }
    ensures two_seats { IsPaid (behind linked_threads) two_seats 8179 }
{}

/// Which lines leave rights warm, and what a turn may cost.
pub fn sessions_and_what_disturbs()
    ensures calls_that_only_tell { IsPaid (fresh small) calls_that_only_tell 4090 }
    ensures stores_into_both_pages { IsPaid (behind linked) stores_into_both_pages 12269 }
    ensures denied_twice { IsPaid (fresh small) denied_twice 8176 }
    ensures refused_calls { IsPaid (fresh small) refused_calls 8178 }
    ensures domain_and_back { IsPaid (fresh small) domain_and_back 20442 }
    ensures turns_that_disturb { IsPaid (behind calling_script) turns_that_disturb 20448 }
    ensures turns_that_load { IsPaid (behind loading_script) turns_that_load 8183 }
    ensures one_key_twice { IsPaid (behind making_script) one_key_twice 16356 }
{}

/// Which rights a call tests, and which words it counts.
pub fn sessions_and_what_they_ask_for()
    ensures calls_on_an_object { IsPaid (behind linked) calls_on_an_object 24528 }
    ensures delete_then { IsPaid (behind linked) delete_then 20444 }
    ensures thread_then { IsPaid (behind linked) thread_then 20444 }
    ensures pwadd_then { IsPaid (behind linked) pwadd_then 16356 }
    ensures ext_then { IsPaid (behind linked) ext_then 16356 }
    ensures six_rights_in_turn { IsPaid (behind owner_alone) six_rights_in_turn 53145 }
    ensures sixth_right_is_kept { IsPaid (behind owner_alone) sixth_right_is_kept 49057 }
{}

/// The same of a turn.
pub fn sessions_and_what_turns_ask_for()
    ensures turns_that_enter { IsPaid (behind entering_script) turns_that_enter 20448 }
    ensures turns_that_fault { IsPaid (behind faulting_scripts) turns_that_fault 28624 }
    ensures turns_that_store { IsPaid (behind storing_script) turns_that_store 8183 }
    ensures turns_that_call { IsPaid (behind script_of_calls) turns_that_call 20449 }
    ensures one_seat_in_a_turn { IsPaid far_object one_seat_in_a_turn 20446 }
{}
