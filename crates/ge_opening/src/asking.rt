//! The instances that a job asks for (qsub, -q).

ghost use Rattle.std.specs.Prelude.{◌≡◌};
ghost use Rattle.std.specs.List.{list_any};
ghost use Rattle.ge_model_place.specs.Opening.{in_group_like, names_place, names_instance, is_asked_for};

use ge_pieces::{before, behind, has, is_among};
use ge_rows::{Groups, InstanceId, Job, List, Text};
use ge_text::matches;

fn is_group_like(pattern: &[u8], host: &Text, name: &Text, hosts: &List<Text>) -> bool
    ensures { result ≡ in_group_like pattern.now host.now (name.now, hosts.now) }
{
    matches(pattern, name.bytes()) && is_among(host, hosts.items())
}

fn is_in_groups_like(groups: &Groups, pattern: &[u8], host: &Text) -> bool
    ensures { result ≡ list_any (in_group_like pattern.now host.now) groups.now.hosts }
{
    for (name, hosts) in groups.hosts.iter() {
        if is_group_like(pattern, host, name, hosts) {
            return true;
        }
    }
    false
}

// Whether what stands behind the first at sign of a pattern names a host.
fn names_host(groups: &Groups, host: &Text, pattern: &[u8]) -> bool
    ensures { result ≡ names_place groups.now host.now pattern.now }
{
    match pattern {
        [] => false,
        [first, ..] => {
            if *first == b'@' {
                is_in_groups_like(groups, pattern, host)
            } else {
                matches(pattern, host.bytes())
            }
        }
    }
}

fn is_named_by(groups: &Groups, at: &InstanceId, pattern: &Text) -> bool
    ensures { result ≡ names_instance groups.now at.now pattern.now }
{
    let pattern = pattern.bytes();
    matches(before(b'@', pattern), at.queue.bytes())
        && (!has(b'@', pattern) || names_host(groups, &at.host, behind(b'@', pattern)))
}

fn is_named_by_one(groups: &Groups, at: &InstanceId, patterns: &[Text]) -> bool
    ensures { result ≡ list_any (names_instance groups.now at.now) patterns.now }
{
    patterns
        .iter()
        .any(|pattern| is_named_by(groups, at, pattern))
}

/// Whether an instance is one of those that a job asks for; a job that names none asks for all (qsub, `-q`).
pub(crate) fn is_asked(groups: &Groups, job: &Job, at: &InstanceId) -> bool
    ensures { result ≡ is_asked_for groups.now job.now at.now }
{
    let patterns = job.request.queues.items();
    patterns.is_empty() || is_named_by_one(groups, at, patterns)
}
