//! Plans: what an event is answered with, and what it changes.
ghost use Rattle.std.specs.Prelude.{◌≡◌, ◌≢◌, ℕ, ◌≤◌, ◌&&◌, Bool, true, IfSome, List, is_some, flat_map, length, take};
ghost use Rattle.std.specs.List.{list_all};
ghost use Rattle.ge_rows.specs.declared.cluster.Cluster.{Cluster};
ghost use Rattle.ge_rows.specs.declared.entries.Entry.{Entry};
ghost use Rattle.ge_rows.specs.declared.events.Event.{Event};
ghost use Rattle.ge_model_jobs.specs.Applying.{after_entry};
ghost use Rattle.ge_model_core.specs.Plan.{event_command, plan_of};
ghost use Rattle.ge_model_core.specs.Render.{rendered};
ghost use Rattle.ge_model_core.specs.Trace.{cluster_after, output};
ghost use Rattle.ge_laws.specs.PlannedEvents.{asks_for_change, asks_for_stop};
ghost use Rattle.ge_laws.specs.PlannedEvents.{is_accepted, IsFrontOf, replies_of, tells_memory};

/// An event has an entry exactly where it is accepted and its command changes the cluster, which is each command but
/// the queries and `qconf -km`. The entry's moment is the event's.
pub fn accepted_changes_have_entries()
    ensures entries { (c : Cluster) (e : Event) → is_some (plan_of c e).entry
        ≡ (is_accepted (plan_of c e) && asks_for_change (event_command e.form e.text)) }
    ensures moments { (c : Cluster) (e : Event)
        → IfSome (plan_of c e).entry (λ entry. entry.moment ≡ e.moment) }
{}

/// An event stops the master exactly where it is an accepted `qconf -km`.
pub fn only_an_accepted_stop_stops()
    ensures { (c : Cluster) (e : Event) → (plan_of c e).stop
        ≡ (is_accepted (plan_of c e) && asks_for_stop (event_command e.form e.text)) }
{}

/// Accounting lines are never changed or taken away: after any entry, and after any events, the lines that there were
/// are the first of those that there are (`accounting`). So a log that holds the first of a cluster's lines holds the first
/// of every later one's.
pub fn accounting_lines_only_grow()
    ensures entry { (c : Cluster) (entry : Entry) → IsFrontOf c.lines (after_entry c entry).lines }
    ensures traces { (c : Cluster) (events : List Event) (marks : List Bool)
        → IsFrontOf c.lines (cluster_after plan_of c events marks).lines }
    ensures fronts { (c : Cluster) (events : List Event) (marks : List Bool) (n : ℕ) → n ≤ length c.lines
        → take n (cluster_after plan_of c events marks).lines ≡ take n c.lines }
{}

/// No plan answers an event with 99, the code that tells of want of memory: so a reply with it tells that its event
/// found no memory and changed nothing, and no other does.
pub fn plans_never_want_memory()
    ensures { (c : Cluster) (e : Event) → (plan_of c e).reply.code ≢ 99 }
{}

/// What is written for events is their replies, one after the other; and the replies with the code 99 are those whose
/// events found no memory: whoever reads the replies knows which events changed nothing for want of it.
pub fn replies_tell_want_of_memory()
    ensures written { (c : Cluster) (events : List Event) (marks : List Bool)
        → output plan_of c events marks
        ≡ flat_map (λ reply. rendered reply.1) (replies_of c events marks) }
    ensures told { (c : Cluster) (events : List Event) (marks : List Bool)
        → list_all tells_memory (replies_of c events marks) ≡ true }
{}
