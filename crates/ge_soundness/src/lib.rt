//! The soundness of the cluster, as laws of what is answered.
//!
//! - [`sound_clusters_stay_sound`]: the opening cluster is sound, and no event takes that away.
//! - [`refused_events_change_nothing`]: an event is accepted or refused, and a refused one leaves all as it was.
//! - [`granted_reservations_keep_limits`]: an advance reservation is granted what there is.
//!
//! The functions do nothing: their contracts are the laws.
#![tactic(auto)]

ghost use Rattle.std.specs.Prelude.{◌≡◌, ◌≢◌, ◌∷◌, ◌⊎◌, Bool, IfSome, List, Some};
ghost use Rattle.ge_base.specs.declared.refusal.Refusal.{Refusal};
ghost use Rattle.ge_model_rows.specs.Opening.{opening_cluster};
ghost use Rattle.ge_rows.specs.declared.cluster.Cluster.{Cluster};
ghost use Rattle.ge_rows.specs.declared.events.Event.{Event};
ghost use Rattle.ge_rows.specs.declared.entries.Change.TheVariants.{Book};
ghost use Rattle.ge_rows.specs.declared.jobs.Advance.{Advance};
ghost use Rattle.ge_model_place.specs.Advances.{KeepsBeside};
ghost use Rattle.ge_model_jobs.specs.Soundness.{IsSound};
ghost use Rattle.ge_model_core.specs.Refusals.{refused};
ghost use Rattle.ge_model_jobs.specs.Applying.{after_entry};
ghost use Rattle.ge_model_jobs.specs.Orderly.{IsOrdered};
ghost use Rattle.ge_model_core.specs.Plan.{plan_of};
ghost use Rattle.ge_model_core.specs.Trace.{cluster_after};

/// The opening cluster is sound, and a sound cluster in order is so after each entry that the plan of an event gives. So is
/// the cluster after any trace, also one in which memory was wanting for some of the events.
///
/// In a sound cluster the number of each live job is below the next job's; each live job has a task, and each of its
/// tasks is in its span and waits, is in error or runs, just one of these; the serials of running tasks are at least
/// 1, below the next one, and differ; no job was submitted and no task started after the last entry; the numbers of
/// advance reservations are at least 1 and below the next one, which is at least 1 too, and each begins before it ends;
/// and each live job joined no advance reservation, or one that is there. It is in order where its jobs and its advance
/// reservations stand by rising number, and each job has its sets of tasks in their one form and its running tasks by
/// rising number, as the tables and sets of a program do.
pub fn sound_clusters_stay_sound()
    ensures opening { IsSound opening_cluster × IsOrdered opening_cluster }
    ensures entries { (c : Cluster) (e : Event) → IsSound c → IsOrdered c
        → IfSome (plan_of c e).entry (λ entry. IsSound (after_entry c entry)
        × IsOrdered (after_entry c entry)) }
    ensures traces { (events : List Event) (marks : List Bool)
        → IsSound (cluster_after plan_of opening_cluster events marks)
        × IsOrdered (cluster_after plan_of opening_cluster events marks) }
{}

/// Every event is accepted, with code 0, or refused: then it has no entry, and the master goes on. So from any cluster
/// a trace that begins with a refused event leaves what the rest of it leaves.
pub fn refused_events_change_nothing()
    ensures answers { (c : Cluster) (e : Event) → ((plan_of c e).reply.code
        ≡ 0) ⊎ ((refusal : Refusal) × (plan_of c e ≡ refused refusal)) }
    ensures traces { (c : Cluster) (e : Event) (events : List Event) (mark : Bool)
        (marks : List Bool) → (plan_of c e).reply.code ≢ 0
        → cluster_after plan_of c (e ∷ events) (mark ∷ marks)
        ≡ cluster_after plan_of c events marks }
{}

/// What an accepted `qrsub` is granted takes no limit over what there is: where the plan of an event in a sound cluster
/// books an advance reservation, under the next number, the slots and resources of each limit that running tasks and
/// advance reservations book at each moment, with it among them, are at most as many as there are, unless more were
/// booked before it.
pub fn granted_reservations_keep_limits()
    ensures { (c : Cluster) (e : Event) (advance : Advance)
        → IsSound c → (plan_of c e).entry ≡ Some (record {
          moment = e.moment;
          change = Book advance;
        })
        → KeepsBeside c e.moment c.next_advance advance }
{}
