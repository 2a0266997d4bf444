//! What the rule set `max` of the page's cluster counts grants by.

use crate::answers::{is_named, number};
use crate::sites::Site;
use ge_printing::join_words;
use ge_quota::{Who, keys, limit_key};
use ge_rows::{QuotaKey, Text};
use std::alloc::{AllocError, Global};

// A key's rule, its user in brackets and its host.
fn shown(alloc: Global, key: &QuotaKey) -> Result<Text, AllocError> {
    let rule = key.rule.to_string(alloc)?;
    let (user, host) = (key.user.bytes(), key.host.bytes());
    join_words(alloc, b"", &[rule.as_bytes(), b" [", user, b"] ", host])
}

fn found(alloc: Global, site: &Site, who: &Who<'_>) -> Result<Text, AllocError> {
    let set = Text::from_bytes(alloc, b"max")?;
    match limit_key(alloc, &site.cluster, &site.groups, &set, who)? {
        Some(key) => shown(alloc, &key),
        None => Text::from_bytes(alloc, b"none"),
    }
}

/// What a call answers for a user at a host: `limit_key` the key of the rule set, and any other how many keys all rule sets have.
pub(crate) fn answer(
    alloc: Global,
    site: &Site,
    name: &[u8],
    user: &Text,
    host: &Text,
) -> Result<Text, AllocError> {
    let none = Text::new(alloc);
    let who = Who {
        user,
        group: &none,
        project: &none,
        pe: &none,
        queue: &none,
        host,
    };
    if is_named(name, b"limit_key") {
        return found(alloc, site, &who);
    }
    let all = keys(alloc, &site.cluster, &site.groups, &who)?;
    number(alloc, Some(all.len() as u64))
}
