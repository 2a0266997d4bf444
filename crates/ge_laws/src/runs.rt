//! Scheduling runs: a run decides each waiting task, in an order that is given, and books what it starts and reserves.
ghost use Rattle.std.specs.Prelude.{◌≡◌, ◌↔◌, ◌≤◌, ◌++◌, ℕ, List, flat_map, max, true};
ghost use Rattle.ge_rows.specs.declared.cluster.Cluster.{Cluster};
ghost use Rattle.ge_rows.specs.declared.hosts.Groups.{Groups};
ghost use Rattle.ge_rows.specs.declared.hosts.InstanceId.{InstanceId};
ghost use Rattle.ge_rows.specs.declared.jobs.Advance.{Advance};
ghost use Rattle.ge_rows.specs.declared.jobs.Grant.{Grant};
ghost use Rattle.ge_rows.specs.declared.jobs.Job.{Job};
ghost use Rattle.ge_rows.specs.declared.scheduling.Booking.{Booking};
ghost use Rattle.ge_rows.specs.declared.scheduling.Decision.{Decision};
ghost use Rattle.ge_rows.specs.declared.scheduling.LimitId.{LimitId};
ghost use Rattle.ge_rows.specs.declared.tasks.TaskId.{TaskId};
ghost use Rattle.ge_model_place.specs.Bookings.{plain_sum};
ghost use Rattle.ge_model_rows.specs.Groups.{expanded};
ghost use Rattle.ge_model_place.specs.Advances.{KeepsWhatIsBooked};
ghost use Rattle.ge_model_place.specs.Choosing.{AreAdmissible, PlacesTask};
ghost use Rattle.ge_model_place.specs.Limits.{capacity_of};
ghost use Rattle.ge_model_place.specs.Placement.{are_admissible};
ghost use Rattle.ge_model_place.specs.Running.{booked_by, run_of};
ghost use Rattle.ge_model_place.specs.Runs.{bookings_after, DecidesEach, IsEarliest, IsRun};
ghost use Rattle.ge_model_place.specs.Windows.{base_bookings};

/// What the scheduler computes is a run, and there is no other: tasks in their order, a cluster and a moment have one
/// list of decisions in which each task starts, is reserved or is skipped as the rules say. It has one decision for
/// each task, in the order of the tasks: no task is decided twice, and none is forgotten.
pub fn runs_decide_each_task_once()
    ensures there { (c : Cluster) (tasks : List TaskId) (now : ℕ)
        → IsRun c tasks now (run_of c tasks now) }
    ensures one { (c : Cluster) (tasks : List TaskId) (now : ℕ) (decisions : List Decision)
        → IsRun c tasks now decisions → decisions ≡ run_of c tasks now }
    ensures each { (c : Cluster) (tasks : List TaskId) (now : ℕ) (decisions : List Decision)
        → IsRun c tasks now decisions → DecidesEach tasks decisions }
{}

/// A run takes nothing away that is booked: what is booked after more decisions is what was booked before them, with
/// what they book behind it. And it takes no limit over what there is: at each moment from now on, the slots or the
/// amount of a consumable that running tasks, advance reservations and the run's decisions book together is at most
/// what is configured, or what was booked before the run where that was more already.
pub fn runs_keep_limits()
    ensures grows { (c : Cluster) (now : ℕ) (before more : List Decision)
        → bookings_after c now (before ++ more)
        ≡ bookings_after c now before ++ flat_map (booked_by c (expanded c) now) more }
    ensures kept { (c : Cluster) (tasks : List TaskId) (now : ℕ) (decisions : List Decision)
        → IsRun c tasks now decisions
        → (limit : LimitId) (moment : ℕ) → now ≤ moment
        → plain_sum (bookings_after c now decisions) limit moment
        ≤ max (capacity_of c (expanded c) limit)
        (plain_sum (base_bookings c (expanded c) now) limit moment) }
{}

/// A task is placed as the allocation rule of its parallel environment says, for the greatest number of slots of its
/// range that the rule can give: `$fill_up` takes slots from the first instance on, `$pe_slots` all on the first host
/// that has them, a fixed number that many on each host, and `$round_robin` one after the other on each host. A task
/// without a parallel environment has one slot at the first instance that takes it. Where no number of the range can
/// be given, and only there, it has no placement (`sge_pe`, allocation_rule). Grants are admissible exactly where the
/// instances are open to the job and at each moment of the window there is room for all that they ask (`queue_conf`).
pub fn placements_follow_their_rule()
    ensures rule { (c : Cluster) (groups : Groups) (order : List InstanceId)
        (bookings : List Booking) (from : ℕ) (task : TaskId)
        → PlacesTask c groups order bookings task from }
    ensures admissible { (c : Cluster) (groups : Groups) (job : Job) (bookings : List Booking)
        (from : ℕ) (grants : List Grant)
        → ((are_admissible c groups job bookings from grants ≡ true)
        ↔ AreAdmissible c groups job bookings from grants) }
{}

/// A task that can't start now, and that is reserved and has no parallel environment, is reserved no later than it
/// could start: after now and before its reservation there is no moment at which an instance would take it.
pub fn reservations_are_at_the_first_moment()
    ensures { (c : Cluster) (now : ℕ) → IsEarliest c now }
{}

/// What an advance reservation is granted takes no limit over what there is, at any moment, beside all that running
/// tasks and the other reservations book, unless more was booked before it (`qrsub`). The reservation lasts, names
/// each attribute once, and is booked under a number in which no task runs.
pub fn advances_keep_limits()
    ensures { (c : Cluster) (now number : ℕ) (a : Advance) → KeepsWhatIsBooked c now number a }
{}
