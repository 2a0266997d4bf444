//! Forms that a program can keep, and the rules in their own words: where a definition is written so that a fast
//! program can meet it, it gives just what the rule says.
ghost use Rattle.std.specs.Prelude.{◌≡◌, ◌≤◌, ◌-◌, ◌^◌, ◌&&◌, ◌++◌, ℕ, Bool, List, length, not, true, false};
ghost use Rattle.std.specs.Prelude.{Err, [], Option, unwrap_or, fold};
ghost use Rattle.std.specs.List.{list_any};
ghost use Rattle.std.specs.Map.{lookup, values_of};
ghost use Rattle.std.specs.Option.{option_or};
ghost use Rattle.ge_base.specs.declared.refusal.Refusal.{Refusal};
ghost use Rattle.ge_collections.specs.Keyed.{at_number, text_eq};
ghost use Rattle.ge_rows.specs.declared.entries.Pick.{Pick};
ghost use Rattle.ge_rows.specs.declared.queues.Attr.{Attr};
ghost use Rattle.ge_rows.specs.declared.tasks.TaskSpan.{TaskSpan};
ghost use Rattle.ge_model_rows.specs.Faults.{first_fault, sooner};
ghost use Rattle.ge_model_rows.specs.Groups.{is_group, group_has};
ghost use Rattle.ge_model_rows.specs.Queues.{attr_at};
ghost use Rattle.ge_model_jobs.specs.Ending.{without_picked};
ghost use Rattle.ge_model_jobs.specs.Picks.{joined_picks, both_named, picks_task, is_joined_name, IsPick, ArePicks};
ghost use Rattle.ge_model_jobs.specs.Serials.{running_with, met_with};
ghost use Rattle.ge_model_report.specs.Orders.{orders_of, with_texts_of};
ghost use Rattle.ge_base.specs.declared.refusal.Refusal.TheVariants.{TooLong};
ghost use Rattle.ge_rows.specs.declared.cluster.Cluster.{Cluster};
ghost use Rattle.ge_rows.specs.declared.entries.Patch.{Patch};
ghost use Rattle.ge_rows.specs.declared.hosts.Groups.{Groups};
ghost use Rattle.ge_rows.specs.declared.jobs.Grant.{Grant};
ghost use Rattle.ge_rows.specs.declared.jobs.Job.{Job};
ghost use Rattle.ge_model_core.specs.Reaching.{all_predecessors, meets, reaches_itself, waits_for};
ghost use Rattle.ge_model_grammar.specs.Commands.{command_of};
ghost use Rattle.ge_model_grammar.specs.Parsing.{in_grammar, parsed};
ghost use Rattle.ge_model_jobs.specs.Holds.{free_tasks, held_tasks, is_task_held};
ghost use Rattle.ge_model_jobs.specs.Orderly.{AllOrderly, IsOrderly};
ghost use Rattle.ge_model_order.specs.Share.{share_tickets_of};
ghost use Rattle.ge_model_order.specs.ShareRule.{share_tickets_by_rule};
ghost use Rattle.ge_model_place.specs.Demands.{DemandsEach};
ghost use Rattle.ge_model_grammar.specs.ScriptLines.{has_long_line, lines_of};
ghost use Rattle.ge_model_rows.specs.Sets.{has_number};
ghost use Rattle.ge_model_text.specs.declared.Form.{Form};
ghost use Rattle.ge_model_text.specs.Reading.{Answers, bounded, reading};
ghost use Rattle.ge_model_text.specs.Value.{IsWorth};

/// Share tickets that are worked out by tables of the tree's nodes are those of the rule, in which each node asks the whole
/// tree for its children, its leaves and its usage (`share_tree`). The jobs are as many as can be counted.
pub fn share_tickets_are_those_of_the_rule()
    ensures { (c : Cluster) (numbers : List ℕ) (now : ℕ) → length numbers ≤ 2 ^ 128 - 1
        → share_tickets_of c numbers now ≡ share_tickets_by_rule c numbers now }
{}

/// What grants of a job ask of a limit is what the rule says: for each slot that counts for it the amount, or the
/// amount once where the resource is consumed once for a job (`complex`, consumable).
pub fn demands_are_those_of_the_rule()
    ensures { (c : Cluster) (groups : Groups) (job : Job) (grants : List Grant)
        → DemandsEach c groups job grants }
{}

/// The tasks of a job that its array predecessors hold, taken as a set, are those that are held one by one, and the free
/// ones are the others that wait (`qsub`, -hold_jid_ad).
pub fn held_tasks_are_held_one_by_one()
    ensures held { (task : ℕ) (jobs : List (ℕ × Job)) (job : Job)
        → AllOrderly jobs → IsOrderly job
        → has_number task (held_tasks jobs job)
        ≡ (has_number task job.queued && is_task_held jobs job task) }
    ensures free { (task : ℕ) (jobs : List (ℕ × Job)) (job : Job)
        → AllOrderly jobs → IsOrderly job
        → has_number task (free_tasks jobs job)
        ≡ (has_number task job.queued && not (is_task_held jobs job task)) }
{}

/// Whether a job would wait for itself is found by any number of steps that isn't below that of all predecessors.
pub fn cycles_are_found_by_enough_steps()
    ensures { (c : Cluster) (patches : List (ℕ × Patch)) (number steps : ℕ)
        → all_predecessors c patches ≤ steps
        → meets (waits_for c patches) number steps [] (waits_for c patches number)
        ≡ reaches_itself c patches number }
{}

/// A text with a line that is too long is told so, and by its lines alone; any other is its command, or a syntax error
/// where it has none.
pub fn texts_are_commands_or_refused()
    ensures long { (text : List ℕ) → has_long_line (lines_of text) ≡ true
        → parsed text ≡ Err TooLong }
    ensures short { (text : List ℕ) → has_long_line (lines_of text) ≡ false
        → parsed text ≡ in_grammar (command_of text) }
{}

/// Refusals of two parts answer as the sooner of what answers to each part, so a reader keeps one refusal alone.
pub fn refusals_of_parts_answer_together()
    ensures { (first second : List Refusal)
        → first_fault (first ++ second) ≡ sooner (first_fault first) (first_fault second) }
{}

/// Picks that are joined job by job name a task where one of them as written does; and a job that loses the tasks of two
/// picks, one after the other, is the job that loses those of both together (`qdel`).
pub fn joined_picks_are_those_written()
    ensures names { (number task : ℕ) (picks : List Pick) → ArePicks picks
        → is_joined_name (at_number (joined_picks picks) number) task
        ≡ list_any (picks_task number task) picks }
    ensures twice { (force : Bool) (first tasks : Option (List TaskSpan)) (job : Job)
        → IsPick first → IsPick tasks → IsOrderly job
        → without_picked force tasks (without_picked force first job)
        ≡ without_picked force (both_named first tasks) job }
{}

/// The running task of a serial is the first that a walk over all jobs and their running tasks meets.
pub fn serials_are_the_first_met()
    ensures { (jobs : List (ℕ × Job)) (serial : ℕ)
        → running_with jobs serial ≡ met_with jobs serial }
{}

/// The orders of a host are the texts that a table by serial, job and task gathers one by one.
pub fn orders_are_gathered_by_serial()
    ensures { (c : Cluster) (host : List ℕ)
        → orders_of c host ≡ values_of (fold (with_texts_of host) [] c.jobs) }
{}

/// An attribute at a host is what is looked up under the host, else under a group that has it, else the plain value
/// (`queue_conf`).
pub fn overrides_are_looked_up<T>()
    ensures { (attr : Attr T) (groups : Groups) (host : List ℕ)
        → attr_at attr groups host
        ≡ unwrap_or (option_or (lookup (text_eq host) attr.overrides)
        (lookup (λ name. is_group name && group_has groups name host) attr.overrides))
        attr.plain }
{}

/// Amounts are those of their grammar: what a text is read as is what the grammar says that it is worth, it is refused exactly where it has
/// no such form or is worth too much, and each text that is worth an amount is read as that or as too large (`complex`, `sge_types`).
pub fn amounts_are_those_of_their_grammar()
    ensures answers { (form : Form) (text : List ℕ) → Answers form text (reading form text) }
    ensures worth { (form : Form) (text : List ℕ) (amount : ℕ)
        → IsWorth form text amount → reading form text ≡ bounded amount }
{}
