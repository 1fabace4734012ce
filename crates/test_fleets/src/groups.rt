//! Groups.
use group_tree::{Group, GroupFault, Limit};
use std::alloc::{Allocator, Global};

/// A group with these hosts, which have no variables, and a limit of so many hosts.
pub fn group<A: Allocator + Clone>(
    alloc: A,
    name: &str,
    limit: Option<u16>,
    hosts: &[&str],
) -> Result<Group<A>, GroupFault> {
    let mut group = Group::new(alloc, name, limit.map(Limit::Count), &[])?;
    for host in hosts {
        group.add_host(host, &[])?;
    }
    Ok(group)
}

/// The group with one more child.
pub fn with<A: Allocator + Clone>(
    mut group: Group<A>,
    child: Group<A>,
) -> Result<Group<A>, GroupFault> {
    group.add_child(child)?;
    Ok(group)
}

/// So many hosts, of which as many may be down as `limit` says.
fn limited(alloc: Global, limit: u16, hosts: &[&str]) -> Result<Group<Global>, GroupFault> {
    let limited = group(alloc, "g", Some(limit), hosts)?;
    with(group(alloc, "all", None, &[])?, limited)
}

/// The same, made again where it was refused memory.
pub fn limited_again(
    alloc: Global,
    limit: u16,
    hosts: &[&str],
) -> Result<Group<Global>, GroupFault> {
    match limited(alloc, limit, hosts) {
        Err(GroupFault::Memory) => limited(alloc, limit, hosts),
        answer => answer,
    }
}
