//! Laws of runs of the program, by the definitions of ge_model_program: what a user may rely on, whatever stops a run.
//! No program stands on this crate.
//!
//! - [`acknowledged_events_stand`]: whoever has read a reply whole finds its event in the areas.
//!
//! The functions do nothing: their contracts are the laws.
#![tactic(auto)]

ghost use Rattle.std.specs.Prelude.{◌≡◌, ℕ, Bool, List, Ok, Option, Some};
ghost use Rattle.ge_rows.specs.declared.cluster.Cluster.{Cluster};
ghost use Rattle.ge_rows.specs.declared.events.Event.{Event};
ghost use Rattle.ge_rows.specs.declared.planned.Planned.{Planned};
ghost use Rattle.ge_model_grammar.specs.Events.{events_of};
ghost use Rattle.ge_model_core.specs.Plan.{plan_of};
ghost use Rattle.ge_outside.specs.Clocks.{Answers};
ghost use Rattle.ge_outside.specs.Doors.{ClosedLink};
ghost use Rattle.ge_model_journal.specs.Disk.{Content};
ghost use Rattle.ge_model_journal.specs.Journal.{meaning, State};
ghost use Rattle.ge_model_program.specs.declared.LinkEnd.{LinkEnd};
ghost use Rattle.ge_model_program.specs.Doors.{ServedTo};
ghost use Rattle.ge_model_program.specs.Keeping.{Ledger};
ghost use Rattle.ge_model_program.specs.Replaying.{ReplaysAreas, WereStill};
ghost use Rattle.ge_model_program.specs.Links.{EndsAs};
ghost use Rattle.ge_model_program.specs.Served.{Served};
ghost use Rattle.ge_model_program.specs.StandsFor.{stands_for};
ghost use Rattle.ge_model_program.specs.View.{said_of, View};
ghost use Rattle.ge_run_laws.specs.Standing.{EachFrontStands, EachReadingStands};
ghost use Rattle.ge_run_laws.specs.Standing.{EachStandsForSome, RunsStand};
ghost use Rattle.ge_run_laws.specs.StandingFrames.{FramesStand, HasLinks, InAll};
ghost use Rattle.ge_run_laws.specs.StandingFrames.{LeavesDoor, LeavesHome, LinksStand};

use ge_laws::plans_never_want_memory;

/// Whatever reply was written whole, every pair of images of the areas (what a stop may leave of the two) stands for a
/// cluster that has its event. Of a replay that is said at each exit, whatever its status (`replayed`): for all marks by
/// which one may read the output, since the code of a reply tells whether its event found memory; and for any plan, of
/// the first events of the run itself (`runs`). Of a connection, at each of its ends: a frame whose reply stands whole in
/// what was written to it is no longer in hand, and the cluster that the master holds, and those for which the areas may
/// stand, have it (`linked`); connections in turn hand it on to the next (`served`), and so does the door (`doors`).
///
/// `Home` is the fact that areas were at home when the run began: that they stood for its cluster and nothing was pending.
pub fn acknowledged_events_stand<Home, Ended>()
    ensures runs { (plan : Cluster → Event → Planned) (start : Cluster) (events : List Event)
        (old new : Option (List ℕ)) (a b : List Content)
        (batch before later : ℕ) (ledger : Ledger)
        → RunsStand plan start events Home old new a b Ended batch before later ledger
        (EachFrontStands plan start events Home old new a b) }
    ensures readings { (start : Cluster) (events : List Event)
        (old new : Option (List ℕ)) (a b : List Content)
        (batch before later : ℕ) (ledger : Ledger)
        → RunsStand plan_of start events Home old new a b Ended batch before later ledger
        (λ marks. EachReadingStands plan_of start events Home old new a b) }
    ensures replayed { (batch status : ℕ) (script : List ℕ) (rest : Option (List ℕ))
        (reads reads_now : ℕ) (x y : View) (start : Cluster) (state : State)
        → ReplaysAreas batch status (Some script) rest reads reads_now x y
        → said_of stands_for x.a x.b ≡ Some (Ok start)
        → said_of meaning x.a x.b ≡ Some (Ok state)
        → EachReadingStands plan_of start (events_of script) (WereStill status x)
        x.output y.output y.a y.b }
    ensures linked { (plan : Cluster → Event → Planned) (start : Cluster) (clock : Answers)
        (bytes : List ℕ) (a b : List Content) (old now : Option (List ℕ))
        (later : Option Answers) (how : LinkEnd) (reached : Cluster) (stopping : Bool)
        → EndsAs plan start clock bytes (LeavesHome Home a b) old now later how reached stopping
        → FramesStand plan start clock bytes old now (InAll Home a b reached) }
    ensures served { (plan : Cluster → Event → Planned) (l : Ledger) (start : Cluster)
        (clock : Answers) (coming : List (List ℕ)) (links : List ClosedLink) (kept : Ledger)
        (left : Cluster) (later : Answers) (stopped : Bool)
        → Served plan l start clock coming links kept left later stopped
        → LinksStand plan start clock coming links left later }
    ensures doors { (plan : Cluster → Event → Planned) (origin : Ledger) (start : Cluster)
        (coming : List (List ℕ)) (closed : List ClosedLink) (clock : Answers)
        (coming_now : Option (List (List ℕ))) (closed_now : Option (List ClosedLink))
        (a b : List Content) (status count : ℕ) (later_now : Option Answers) (reached : Cluster)
        → ServedTo plan origin start coming closed clock coming_now closed_now (LeavesDoor Home a b)
        status count later_now reached → Home
        → EachStandsForSome a b (HasLinks plan start clock coming closed closed_now) }
{
    plans_never_want_memory()
}
