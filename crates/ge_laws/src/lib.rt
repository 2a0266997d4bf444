//! Laws of the cluster by the definitions, one for each subject that a user of a batch system asks about, and worked examples: scripts with what is
//! written for them, as theorems that hold by computation. No program stands on this crate.
//!
//! - `runs`: what a scheduling run decides, what it books, and where it places a task.
//! - `order`: which tasks a run decides, and in which order.
//! - `sets`: sets of task numbers, and their texts.
//! - `printed`: configured objects, printed and read again.
//! - `plans`: what an event is answered with, and what it changes.
//! - `rules`: forms that a program can keep give what the rules say.
//!
//! The functions do nothing: their contracts are the laws. Among the proofs, `Amounts` has what texts are worth, and the files that are named after
//! what their examples show have scripts of all commands.
#![tactic(auto)]

mod order;
mod plans;
mod printed;
mod rules;
mod runs;
mod sets;

pub use order::{
    candidates_have_one_priority, eligible_tasks_are_the_first_without_a_hold,
    orders_go_by_priority_then_number, orders_have_each_eligible_task_once,
};
pub use plans::{
    accepted_changes_have_entries, accounting_lines_only_grow, only_an_accepted_stop_stops,
    plans_never_want_memory, replies_tell_want_of_memory,
};
pub use printed::{printed_objects_read_back, shown_objects_are_taken_again, tables_have_names};
pub use rules::{
    amounts_are_those_of_their_grammar, cycles_are_found_by_enough_steps,
    demands_are_those_of_the_rule, held_tasks_are_held_one_by_one, joined_picks_are_those_written,
    orders_are_gathered_by_serial, overrides_are_looked_up, refusals_of_parts_answer_together,
    serials_are_the_first_met, share_tickets_are_those_of_the_rule, texts_are_commands_or_refused,
};
pub use runs::{
    advances_keep_limits, placements_follow_their_rule, reservations_are_at_the_first_moment,
    runs_decide_each_task_once, runs_keep_limits,
};
pub use sets::{
    set_texts_read_back, sets_are_counted_and_walked, sets_gain_and_lose_one_number,
    sets_have_one_form, sets_join_meet_and_differ,
};
