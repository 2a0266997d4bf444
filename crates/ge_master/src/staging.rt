// What the events of a batch give before anything is written.
ghost use Rattle.std.specs.Prelude.{◌≡◌, [], ◌∷◌, ◌++◌, length, flat_map, IfOk, OnOk, OnErr, IsTrue};
ghost use Rattle.std.specs.Option.{option_to_list};
ghost use Rattle.ge_base.specs.declared.refusal.Refusal.TheVariants.{NoMemory};
ghost use Rattle.ge_model_core.specs.Refusals.{refusal_reply};
ghost use Rattle.ge_model_core.specs.Plan.{plan_of};
ghost use Rattle.ge_model_core.specs.Trace.{after_entries};
ghost use Rattle.ge_model_program.specs.StandsFor.{entry_bytes, entry_fits};
ghost use Rattle.ge_master.specs.Staging.{AreFit, IsPrepared, Stages, IsStaged};

use ge_base::{Refusal, code};
use ge_codec::Canon;
use ge_core::{apply, plan};
use ge_rows::{Cluster, Entry, Event, List, Reply, Text};
use std::alloc::{AllocError, Global};

/// What a batch gives: its replies, the bytes of its entries, and whether it stops the master.
#[derive(Drop)]
pub(crate) struct Staged {
    pub(crate) replies: List<Reply>,
    pub(crate) body: Text,
    pub(crate) stop: bool,
}

// The bytes of an entry behind others, which hold all of it. An error leaves the others.
#[tactic(auto, unfolding(ge_model_program::specs::StandsFor::entry_bytes, ge_model_program::specs::StandsFor::entry_fits))]
fn put_entry(entry: &Entry, body: &mut Text) -> Result<(), AllocError>
    ensures bytes { OnOk result (body.new ≡ body.old ++ entry_bytes entry.now) }
    ensures fits { OnOk result (IsTrue (entry_fits entry.now)) }
    ensures same { OnErr result (body.new ≡ body.old) }
{
    let start = body.len();
    if entry.put(body).is_err() {
        body.truncate(start);
        return Err(AllocError);
    }
    Ok(())
}

// The bytes of what an event changes behind those of others. An error leaves the others.
fn put_change(entry: &Option<Entry>, body: &mut Text) -> Result<(), AllocError>
    ensures bytes { OnOk result (body.new ≡ body.old
        ++ flat_map entry_bytes (option_to_list entry.now)) }
    ensures fits { OnOk result (AreFit (option_to_list entry.now)) }
    ensures same { OnErr result (body.new ≡ body.old) }
{
    match entry {
        Some(entry) => put_entry(entry, body),
        None => Ok(()),
    }
}

// Plans an event and puts its reply and the bytes of its entry behind the others: its entry, and whether it stops the master. An
// error leaves the others.
fn prepare(
    alloc: Global,
    cluster: &Cluster,
    event: &Event,
    replies: &mut List<Reply>,
    body: &mut Text,
) -> Result<(Option<Entry>, bool), AllocError>
    ensures prepared { IfOk result (λ change. IsPrepared
        (plan_of cluster.now event.now) replies.old replies.new body.old body.new change) }
    ensures same_replies { OnErr result (replies.new ≡ replies.old) }
    ensures same_body { OnErr result (body.new ≡ body.old) }
{
    let (entry, reply, stop) = plan(alloc, cluster, event)?.into_parts();
    let size = body.len();
    put_change(&entry, body)?;
    if replies.push(reply).is_err() {
        body.truncate(size);
        return Err(AllocError);
    }
    Ok((entry, stop))
}

// The reply that there is no memory.
fn no_memory(alloc: Global) -> Result<Reply, AllocError>
    ensures { IfOk result (λ reply. reply ≡ refusal_reply NoMemory) }
{
    let mut lines = List::new(alloc);
    lines.push(Text::from_bytes(alloc, b"no memory")?)?;
    Ok(Reply {
        code: code(Refusal::NoMemory),
        lines,
    })
}

fn change(alloc: Global, cluster: &mut Cluster, entry: Option<Entry>) -> Result<(), AllocError>
    ensures { OnOk result (cluster.new ≡ after_entries cluster.old entry) }
{
    match entry {
        Some(entry) => apply(alloc, cluster, entry),
        None => Ok(()),
    }
}

// Answers an event: its reply and the bytes of its entry go behind the others, and the cluster becomes the one after it. Tells
// whether it stops the master. Want of memory before the cluster changes is answered as such.
fn stage(
    alloc: Global,
    cluster: &mut Cluster,
    event: &Event,
    replies: &mut List<Reply>,
    body: &mut Text,
) -> Result<bool, AllocError>
    ensures { IfOk result (λ stop. Stages plan_of cluster.old event.now replies.old replies.new
        body.old body.new cluster.new stop) }
{
    match prepare(alloc, cluster, event, replies, body) {
        Ok((entry, stop)) => {
            change(alloc, cluster, entry)?;
            Ok(stop)
        }
        Err(_) => {
            replies.push(no_memory(alloc)?)?;
            Ok(false)
        }
    }
}

/// Answers the events of a batch in order, up to the one that stops the master, and makes the cluster the one after them.
pub(crate) fn stage_all(
    alloc: Global,
    cluster: &mut Cluster,
    events: &[Event],
) -> Result<Staged, AllocError>
    ensures { IfOk result (λ staged. IsStaged plan_of cluster.old events.now staged cluster.new) }
{
    let mut replies = List::new(alloc);
    let mut body = Text::new(alloc);
    for event in events {
        if stage(alloc, cluster, event, &mut replies, &mut body)? {
            return Ok(Staged {
                replies,
                body,
                stop: true,
            });
        }
    }
    Ok(Staged {
        replies,
        body,
        stop: false,
    })
}
