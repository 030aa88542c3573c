//! What holds of every world: what the machine promises, and what holds of roles at a book.
pub use fdb_machine::laws::{
    accepted_steps_are_answered_by_what_the_trace_told_before,
    acknowledged_transactions_are_logged, acknowledged_transactions_are_serialized_at_their_spots,
    entries_of_traces_are_books, gets_answer_as_the_program_run_on_the_map_at_its_read_version,
    gets_are_refused_exactly_where_the_shard_does_not_serve,
    grants_are_the_greatest_reported_version,
    range_reads_are_refused_exactly_where_a_shard_of_the_range_does_not_serve,
    refusals_change_nothing, roles_fail_for_memory_alone_and_stay_failed,
    sessions_are_where_their_states_say, steps_are_the_machines_where_their_roles_work,
    steps_of_roles_are_accepted_where_they_are_due, the_role_that_takes_the_step_alone_may_fail,
    traces_determine_the_machine, who_begins_after_an_acknowledgement_is_ordered_after_it,
    worked_examples, worked_headline, worked_worlds,
};
pub use fdb_roles::laws::{
    commit_proxies_go_on_with_their_tickets, fronts_of_one_book_have_one_run,
    new_roles_are_at_no_entry, places_are_committed_where_the_asked_say_yes,
    reads_of_committed_transactions_are_those_right_before_their_places,
    replays_of_unpopped_peeks_tell_the_run, roles_go_on_with_one_more_entry,
    roles_stay_where_no_entry_is_taken, shards_go_on_by_what_their_logs_give, worked_proxies,
    worked_roles,
};
