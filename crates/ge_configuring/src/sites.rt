// What hosts, groups, parallel environments, projects and the share tree name.
ghost use Rattle.std.specs.Prelude.{◌≡◌, ◌||◌, ◌&&◌};
ghost use Rattle.std.specs.List.{list_any};
ghost use Rattle.ge_collections.specs.Keyed.{text_eq};
ghost use Rattle.ge_model_config.specs.Cited.{has_name as has_name_in};
ghost use Rattle.ge_model_rows.specs.Pieces.{is_one_of};

use crate::there::has_name;
use ge_pieces::{is_among, is_same};
use ge_rows::{Cluster, Text};

/// Whether a group lists a host or group.
pub(crate) fn place_in_groups(name: &Text, c: &Cluster) -> bool
    ensures { result ≡ list_any (λ group. is_one_of name.now group.1) c.now.groups }
{
    for (_, members) in c.groups.iter() {
        if is_among(name, members.items()) {
            return true;
        }
    }
    false
}

/// Whether a parallel environment has a user set in a list.
pub(crate) fn set_in_pes(name: &Text, c: &Cluster) -> bool
    ensures { result ≡ list_any (λ pe. is_one_of name.now pe.1.users
        || is_one_of name.now pe.1.xusers) c.now.pes }
{
    for (_, pe) in c.pes.iter() {
        if is_among(name, pe.users.items()) || is_among(name, pe.xusers.items()) {
            return true;
        }
    }
    false
}

/// Whether a project does.
pub(crate) fn set_in_projects(name: &Text, c: &Cluster) -> bool
    ensures { result ≡ list_any (λ project. is_one_of name.now project.1.acl
        || is_one_of name.now project.1.xacl) c.now.projects }
{
    for (_, project) in c.projects.iter() {
        if is_among(name, project.acl.items()) || is_among(name, project.xacl.items()) {
            return true;
        }
    }
    false
}

/// Whether the share tree has a project.
pub(crate) fn project_in_shares(name: &Text, c: &Cluster) -> bool
    ensures { result ≡ list_any (λ node. node.1.project
        && text_eq name.now node.1.name) c.now.shares }
{
    for (_, node) in c.shares.iter() {
        if node.project && is_same(name, &node.name) {
            return true;
        }
    }
    false
}

/// Whether a host has an attribute among its values or reports it.
pub(crate) fn complex_on_hosts(name: &Text, c: &Cluster) -> bool
    ensures { result ≡ list_any (λ host. has_name_in host.1.values name.now
        || has_name_in host.1.load name.now) c.now.hosts }
{
    for (_, host) in c.hosts.iter() {
        if has_name(&host.values, name) || has_name(&host.load, name) {
            return true;
        }
    }
    false
}
