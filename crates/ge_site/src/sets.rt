//! Whom user sets admit (access_list).

ghost use Rattle.std.specs.Prelude.{◌≡◌, ◌∷◌};
ghost use Rattle.ge_collections.specs.Keyed.{text_eq};
ghost use Rattle.ge_model_rows.specs.Pieces.{is_one_of};
ghost use Rattle.ge_model_rows.specs.Access.{set_entries, in_user_set, in_user_sets};
ghost use Rattle.ge_model_rows.specs.Access as access;

use ge_pieces::{is_among, is_word};
use ge_rows::{Cluster, List, Text};

// The entries of a user set; one that isn't there has none.
fn entries_of<'a>(c: &'a Cluster, set: &Text) -> &'a [Text]
    ensures { result.now ≡ set_entries c.now set.now }
{
    match c.sets.get(set) {
        Some(entries) => entries.items(),
        None => &[],
    }
}

// Whether an entry stands for a group: its name behind an at sign.
fn names_group(group: &Text, entry: &Text) -> bool
    ensures { result ≡ text_eq (64 ∷ group.now) entry.now }
{
    match entry.bytes() {
        [b'@', name @ ..] => is_word(group.bytes(), name),
        _ => false,
    }
}

fn has_group(group: &Text, entries: &[Text]) -> bool
    ensures { result ≡ is_one_of (64 ∷ group.now) entries.now }
{
    entries.iter().any(|entry| names_group(group, entry))
}

/// Whether a user set has a user: by name, or by group, which stands there behind an at sign. A set that isn't there has
/// nobody.
pub fn in_set(c: &Cluster, set: &Text, user: &Text, group: &Text) -> bool
    ensures { result ≡ in_user_set c.now set.now user.now group.now }
{
    let entries = entries_of(c, set);
    is_among(user, entries) || has_group(group, entries)
}

/// Whether one of these user sets has a user.
pub fn in_sets(c: &Cluster, sets: &[Text], user: &Text, group: &Text) -> bool
    ensures { result ≡ in_user_sets c.now sets.now user.now group.now }
{
    sets.iter().any(|set| in_set(c, set, user, group))
}

/// Whether lists of user sets admit a user, as `user_lists` and `xuser_lists` of a queue or a parallel environment and
/// `acl` and `xacl` of a project (queue_conf, sge_pe, project): one of `lists` has the user, or `lists` is empty, and none
/// of `xlists` has the user.
pub fn may_use(
    c: &Cluster,
    lists: &List<Text>,
    xlists: &List<Text>,
    user: &Text,
    group: &Text,
) -> bool
    ensures { result ≡ access.may_use c.now lists.now xlists.now user.now group.now }
{
    (lists.is_empty() || in_sets(c, lists.items(), user, group))
        && !in_sets(c, xlists.items(), user, group)
}
