//! Groups of hosts that are spelled out.

ghost use Rattle.std.specs.Prelude.{◌≡◌};
ghost use Rattle.ge_model_rows.specs.Groups.{is_group, hosts_of as hosts_named, group_has as has_host};

use ge_pieces::is_among;
use ge_rows::{Groups, Text};

/// Whether an entry of a list of hosts names a group: it begins with `@` (hostgroup).
pub fn is_a_group(entry: &[u8]) -> bool
    ensures { result ≡ is_group entry.now }
{
    match entry {
        [first, ..] => *first == b'@',
        [] => false,
    }
}

/// The hosts that the name of a group stands for; none where there is no such group.
pub fn hosts_of<'a>(groups: &'a Groups, name: &Text) -> &'a [Text]
    ensures { result.now ≡ hosts_named groups.now name.now }
{
    match groups.hosts.get(name) {
        Some(hosts) => hosts.items(),
        None => &[],
    }
}

/// Whether a group of hosts has this host.
pub fn group_has(groups: &Groups, name: &Text, host: &Text) -> bool
    ensures { result ≡ has_host groups.now name.now host.now }
{
    is_among(host, hosts_of(groups, name))
}
