//! The promise that each dispatch is started at most once and accounted at most once, of gridmaster's own cluster: laws of
//! what is answered, by which the cluster is a master of the worlds of `ge_model_world`.
//!
//! - [`clusters_stay_ready`]: a cluster is sound and in order, and its serials are in range, after each entry.
//! - [`running_tasks_keep_their_host`]: what runs after an entry ran before it on the same host, or has a new serial.
//! - [`orders_name_what_runs`]: a host is ordered nothing but tasks that run there.
//! - [`reports_end_their_serial`]: the entry of a report ends its serial and no other, and writes its line.
//! - [`no_other_request_ends_by_a_report`]: every other request has another entry.
//! - [`requests_of_daemons_are_read_back`]: what a daemon writes is read as it was meant.
//! - [`the_cluster_is_a_master`]: all of it, as the laws of a master.
//! - [`dispatches_are_started_and_accounted_once`]: the promise, after each list of steps.
//!
//! The functions do nothing: their contracts are the laws. `specs/Product` is the cluster as a master.
#![tactic(auto)]

ghost use Rattle.std.specs.Prelude.{◌≡◌, ◌⊎◌, ◌≤◌, ◌<◌, ◌^◌, ℕ, false, IfSome, List, Ok, Some};
ghost use Rattle.ge_model_rows.specs.Opening.{opening_cluster};
ghost use Rattle.ge_rows.specs.declared.cluster.Cluster.{Cluster};
ghost use Rattle.ge_rows.specs.declared.entries.Entry.{Entry};
ghost use Rattle.ge_rows.specs.declared.events.Event.{Event};
ghost use Rattle.ge_model_rows.specs.CommandRows.{Command};
ghost use Rattle.ge_model_grammar.specs.Commands.{command_of};
ghost use Rattle.ge_model_jobs.specs.Applying.{after_entry};
ghost use Rattle.ge_model_core.specs.Plan.{plan_of};
ghost use Rattle.ge_execd.specs.declared.rows.OrderLine.{OrderLine};
ghost use Rattle.ge_execd.specs.Daemons.{end_text};
ghost use Rattle.ge_execd.specs.Orders.{line_serial, orders_in};
ghost use Rattle.ge_model_world.specs.declared.rows.Report.{Report};
ghost use Rattle.ge_model_world.specs.declared.rows.Step.{Step};
ghost use Rattle.ge_model_world.specs.Laws.{AreApart, AreHosts, Fits, Has, IsEndOf, KeepsOnce, Laws};
ghost use Rattle.ge_model_world.specs.Worlds.{report_event, root_event, world_of};
ghost use Rattle.ge_world_laws.specs.Product.{is_end, is_end_text, orders_text, product};
ghost use Rattle.ge_world_laws.specs.Product.{IsHost, IsReady, next_of, posts};

/// The opening cluster is sound and in order, and its next serial is at most one past the last that there is; and so is
/// each such cluster after the entry of an event.
pub fn clusters_stay_ready()
    ensures opening { IsReady opening_cluster }
    ensures entries { (c : Cluster) (e : Event) (entry : Entry) → IsReady c
        → (plan_of c e).entry ≡ Some entry → IsReady (after_entry c entry) }
{}

/// What runs after an entry ran before it on the same host, or has a serial from the next one on, which no task had before;
/// and the next serial never falls. So a task keeps its host while it runs, and a serial below the next one that runs no more
/// doesn't come back.
pub fn running_tasks_keep_their_host()
    ensures posts { (c : Cluster) (e : Event) (entry : Entry) (s : ℕ) (h : List ℕ)
        → (plan_of c e).entry ≡ Some entry → Has (s, h) (posts (after_entry c entry))
        → Has (s, h) (posts c) ⊎ (c.next_serial ≤ s) }
    ensures next { (c : Cluster) (e : Event) (entry : Entry)
        → (plan_of c e).entry ≡ Some entry
        → c.next_serial ≤ (after_entry c entry).next_serial }
{}

/// Each serial that a daemon reads in the reply to the request for its host's orders, to run it or to kill it, is that
/// of a task that runs there.
pub fn orders_name_what_runs()
    ensures { (c : Cluster) (moment : ℕ) (h : List ℕ) (lines : List OrderLine) (o : OrderLine)
        → IsReady c → IsHost h
        → orders_in (plan_of c (root_event moment (orders_text h))).reply ≡ Ok lines
        → Has o lines → Has (line_serial o, h) (posts c) }
{}

/// The entry of a report takes its serial from those that run, and no other, and writes one line behind the others, which
/// has the report's exit and amounts.
pub fn reports_end_their_serial()
    ensures { (c : Cluster) (moment : ℕ) (r : Report) (entry : Entry)
        → IsReady c → Fits r.serial r.exit r.cpu r.mem r.io
        → (plan_of c (report_event moment r)).entry ≡ Some entry
        → IsEndOf product c r entry }
{}

/// A text that isn't read as the request `end` has no entry of an end.
pub fn no_other_request_ends_by_a_report()
    ensures { (c : Cluster) (e : Event) (entry : Entry)
        → is_end_text e.text ≡ false
        → (plan_of c e).entry ≡ Some entry → is_end entry.change ≡ false }
{}

/// The request for the orders of a host, and the report of an end by five numbers of 64 bits, are read as these.
pub fn requests_of_daemons_are_read_back()
    ensures orders { (h : List ℕ) → IsHost h
        → command_of (orders_text h) ≡ Some (Command.Orders h) }
    ensures ends { (serial exit cpu mem io : ℕ) → serial < 2 ^ 64 → exit < 2 ^ 64
        → cpu < 2 ^ 64 → mem < 2 ^ 64 → io < 2 ^ 64
        → command_of (end_text serial exit cpu mem io)
        ≡ Some (Command.End serial exit cpu mem io) }
{}

/// gridmaster's cluster keeps all laws of a master: those above, that the serials which run differ and are below the next
/// one, and that accounting lines are written behind those that there are.
pub fn the_cluster_is_a_master()
    ensures { Laws product IsReady next_of posts IsHost }
{}

/// For all names of different hosts and each list of steps of a world of gridmaster and its daemons, in which messages are
/// lost, come late, again and to the wrong daemon, the master stops inside events and daemons inside what they do: each serial is
/// started at most once over all daemons and accounted at most once; the line of one that was accounted by a report has the exit
/// and the amounts that its daemon kept, and all reports of a serial are one. Ends come from daemons alone.
pub fn dispatches_are_started_and_accounted_once()
    ensures { (hosts : List (List ℕ)) (steps : List Step)
        → AreApart hosts → AreHosts IsHost hosts
        → KeepsOnce product (world_of product hosts steps) }
{}
