//! The order of a run: which tasks a scheduling run decides, and which first.
ghost use Rattle.std.specs.Prelude.{◌≡◌, ℕ, map, nat_eq};
ghost use Rattle.std.specs.List.{IsDistinct};
ghost use Rattle.std.specs.List.Sorted.{IsStrictlySortedBy};
ghost use Rattle.ge_rows.specs.declared.cluster.Cluster.{Cluster};
ghost use Rattle.ge_model_jobs.specs.Holds.{eligible_tasks};
ghost use Rattle.ge_model_jobs.specs.Orderly.{IsOrdered};
ghost use Rattle.ge_model_order.specs.Candidates.{candidates};
ghost use Rattle.ge_model_order.specs.Priority.{prios_at};
ghost use Rattle.ge_model_order.specs.Orders.{first_of, once_if_eligible, order_at, times_in};
ghost use Rattle.ge_model_order.specs.Orders.{turn_cmp, unheld_at};

/// The eligible tasks of a job are the first of its waiting tasks that no hold keeps, as many as a run considers
/// (`sched_conf`, max_pending_tasks_per_job, 0 being no bound).
pub fn eligible_tasks_are_the_first_without_a_hold()
    ensures { (c : Cluster) → IsOrdered c → (number now bound : ℕ)
        → eligible_tasks c.jobs number now bound ≡ first_of bound (unheld_at c number now) }
{}

/// Each candidate, a job with an eligible task, has one row of priorities, and no job has two.
pub fn candidates_have_one_priority()
    ensures rows { (c : Cluster) (now : ℕ)
        → map (λ prio. prio.job) (prios_at c now) ≡ candidates c now }
    ensures one { (c : Cluster) → IsOrdered c → (now : ℕ)
        → IsDistinct nat_eq (map (λ prio. prio.job) (prios_at c now)) }
{}

/// The order of a run has each eligible task once, and no other: whatever the job and the task, it stands there as
/// often as it is among the eligible tasks of its job, which is once or never.
pub fn orders_have_each_eligible_task_once()
    ensures { (c : Cluster) → IsOrdered c → (now job task : ℕ)
        → times_in (order_at c now) job task ≡ once_if_eligible c now job task }
{}

/// The order of a run is by priority, the greatest first (`sge_priority`); jobs of one priority stand by number, and the
/// tasks of a job by theirs.
pub fn orders_go_by_priority_then_number()
    ensures { (c : Cluster) → IsOrdered c → (now : ℕ)
        → IsStrictlySortedBy (turn_cmp (prios_at c now)) (order_at c now) }
{}
