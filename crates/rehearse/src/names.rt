//! The hosts and the groups of names.
ghost use Rattle.std.specs.Prelude.{◌≡◌, ◌<◌, false, true, IfOk, IfSome, MatchOption, length, option_map};
ghost use Rattle.rehearse.specs.Commands.{words_of};
ghost use Rattle.rehearse.specs.Names.{group_named, host_named, is_nobody};
ghost use Rattle.rehearse.specs.AnswersInside.{AreNamed};

use crate::words::cut_word;
use domains::Fleet;
use group_tree::{GroupId, HostId};
use std::alloc::{AllocError, Global};
use std::str;

/// The hosts of names, or the first name that is no host's.
#[derive(Drop)]
pub(crate) enum Named<'l> {
    Hosts(Vec<HostId>),
    Nobody(&'l [u8]),
}

/// The hosts of the names in a line. Only want of memory refuses it.
pub(crate) fn find_hosts<'l>(
    alloc: Global,
    fleet: &Fleet,
    names: &'l [u8],
) -> Result<Named<'l>, AllocError>
    ensures { IfOk result (AreNamed fleet.now (words_of names.now)) }
{
    let mut hosts = Vec::new(alloc);
    let mut left = names;
    while let Some((name, rest)) = cut_word(left) {
        let Some(host) = find_host(fleet, name) else {
            return Ok(Named::Nobody(name));
        };
        hosts.push(host)?;
        left = rest;
    }
    Ok(Named::Hosts(hosts))
}

/// The host of a name.
pub(crate) fn find_host(fleet: &Fleet, name: &[u8]) -> Option<HostId>
    ensures { MatchOption result (is_nobody fleet.now name.now ≡ true)
        (λ host. (is_nobody fleet.now name.now ≡ false) × (host ≡ host_named fleet.now name.now)) }
{
    match str::from_utf8(name) {
        Ok(name) => fleet.host(name),
        Err(_) => None,
    }
}

/// The group of a name.
pub(crate) fn find_group(fleet: &Fleet, name: &[u8]) -> Option<GroupId>
    ensures group { option_map (λ group. group.index) result ≡ group_named fleet.now name.now }
    ensures within { IfSome result (λ group. group.index < length fleet.now.groups) }
{
    match str::from_utf8(name) {
        Ok(name) => fleet.group(name),
        Err(_) => None,
    }
}
