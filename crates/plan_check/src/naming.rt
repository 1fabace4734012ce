//! The hosts of the names in batches.
ghost use Rattle.std.specs.Prelude.{◌≡◌, ◌<◌, ◌≤◌, ◌^◌, false, true, IfOk, MatchOption, length};
ghost use Rattle.rehearse.specs.Commands.{words_of};
ghost use Rattle.rehearse.specs.Names.{host_named, is_nobody};
ghost use Rattle.plan_check.specs.Listings.{batch_of, batches_of};
ghost use Rattle.plan_check.specs.Inside.{AreNamed, AreNamedBatches, Goes};

use crate::lines::{cut_line, cut_word};
use crate::listing::batch_in;
use batch_plan::Batches;
use bounded_io::MAX_INPUT;
use domains::Fleet;
use group_tree::HostId;
use std::alloc::{AllocError, Global};
use std::str;

/// The hosts of names, or the first name that is no host's.
#[derive(Drop)]
pub(crate) enum Named<'t> {
    Hosts(Vec<HostId>),
    Nobody(&'t [u8]),
}

/// Batches by their hosts, or the first name that is no host's, with the number of its batch.
#[derive(Drop)]
pub(crate) enum NamedBatches<'t> {
    Batches(Batches),
    Nobody { batch: usize, name: &'t [u8] },
}

/// The host of a name.
fn find_host(fleet: &Fleet, name: &[u8]) -> Option<HostId>
    ensures { MatchOption result (is_nobody fleet.now name.now ≡ true)
        (λ host. (is_nobody fleet.now name.now ≡ false) × (host ≡ host_named fleet.now name.now)) }
{
    match str::from_utf8(name) {
        Ok(name) => fleet.host(name),
        Err(_) => None,
    }
}

/// The hosts of the names in a line. Only want of memory refuses it.
fn find_hosts<'t>(alloc: Global, fleet: &Fleet, names: &'t [u8]) -> Result<Named<'t>, AllocError>
    ensures { IfOk result (AreNamed fleet.now (words_of names.now)) }
{
    let mut hosts = Vec::new(alloc);
    let mut left = names;
    while let Some((name, rest)) = cut_word(left) {
        let Some(host) = find_host(fleet, name) else {
            return Ok(Named::Nobody(name));
        };
        hosts.push(host)?;
        left = rest;
    }
    Ok(Named::Hosts(hosts))
}

/// Adds the batch that a line says behind these, if it says one; or the first of its names that is no host's. Only want of memory refuses it.
fn add_line<'t>(
    alloc: Global,
    fleet: &Fleet,
    batches: &mut Batches,
    line: &'t [u8],
) -> Result<Option<&'t [u8]>, AllocError>
    requires { length batches.old < 2 ^ 63 }
    ensures { IfOk result (Goes fleet.now batches.old batches.new (batch_of (length batches.old) line.now)) }
{
    let Some(names) = batch_in(batches.len(), line) else {
        return Ok(None);
    };
    match find_hosts(alloc, fleet, names)? {
        Named::Hosts(hosts) => {
            batches.push(hosts.as_slice())?;
            Ok(None)
        }
        Named::Nobody(name) => Ok(Some(name)),
    }
}

/// The batches of a plan's text, by their hosts, or the first name that is no host's. Only want of memory refuses it.
pub(crate) fn find_batches<'t>(
    alloc: Global,
    fleet: &Fleet,
    text: &'t [u8],
) -> Result<NamedBatches<'t>, AllocError>
    requires { length text.now ≤ MAX_INPUT }
    ensures { IfOk result (AreNamedBatches fleet.now (batches_of text.now)) }
{
    let mut batches = Batches::new(alloc);
    let mut left = Some(text);
    while let Some(bytes) = left {
        let (line, rest) = cut_line(bytes);
        if let Some(name) = add_line(alloc, fleet, &mut batches, line)? {
            return Ok(NamedBatches::Nobody {
                batch: batches.len() + 1,
                name,
            });
        }
        left = rest;
    }
    Ok(NamedBatches::Batches(batches))
}
