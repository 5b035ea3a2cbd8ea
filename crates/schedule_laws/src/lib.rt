//! What every event of a schedule comes to, and what holds after every list of events: the definitions, and laws of them.
#![tactic(auto)]

mod every_schedule;

pub use every_schedule::{
    accepts_begin_alone, answers_are_of_made_calls, commits_begin_alone, hands_have_origins,
    links_carry_contents, nothing_is_taken_back, one_replica_is_never_stale, reads_are_told,
    repeat_gets_stored_reply, unacknowledged_is_not_settled, void_changes_nothing, window_holds,
    write_commits_current,
};
