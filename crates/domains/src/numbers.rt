//! An inventory by the numbers of its hosts and groups.
ghost use Rattle.std.specs.Prelude.{◌≡◌, ◌<◌, IfOk, IsTrue, map};
ghost use Rattle.std.specs.String.{string_bytes};
ghost use Rattle.inventory_model.specs.Names.{are_distinct};
ghost use Rattle.inventory_model.specs.Limits.{IsWithinLimits};
ghost use Rattle.domains.specs.Numbered.{IsNumbering};

use crate::names::{list_hosts, number_rows};
use crate::offs::list_off;
use crate::rows::list_rows;
use crate::walk::{Spot, list_spots};
use group_tree::Tree;
use indexmap::IndexSet;
use std::alloc::{AllocError, Allocator, Global};

/// Hosts in the order of their names, groups in preorder; a row is a host's and a group's number.
#[derive(Drop)]
pub(crate) struct Numbers {
    pub(crate) hosts: Vec<String>,
    pub(crate) groups: IndexSet<String>,
    pub(crate) limits: Vec<Option<u16>>,
    pub(crate) depths: Vec<usize>,
    pub(crate) rows: Vec<(usize, usize)>,
    pub(crate) off: Vec<bool>,
}

fn names_of_groups<A: Allocator>(
    alloc: Global,
    spots: &[Spot<'_, A>],
) -> Result<IndexSet<String>, AllocError>
    requires { IsTrue (are_distinct (map (λ spot. spot.group.now.name) spots.now)) }
    ensures { IfOk result (λ names. map string_bytes names.keys ≡ map (λ spot. spot.group.now.name) spots.now) }
{
    let mut names = IndexSet::with_capacity(alloc, spots.len())?;
    for spot in spots {
        names.insert(String::from_str(alloc, spot.group.name())?)?;
    }
    Ok(names)
}

fn limits_of<A: Allocator>(
    alloc: Global,
    spots: &[Spot<'_, A>],
) -> Result<Vec<Option<u16>>, AllocError>
    ensures { IfOk result (λ limits. limits.items ≡ map (λ spot. spot.group.now.limit) spots.now) }
{
    let mut limits = Vec::with_capacity(alloc, spots.len())?;
    for spot in spots {
        limits.push(spot.group.limit())?;
    }
    Ok(limits)
}

fn depths_of<A: Allocator>(alloc: Global, spots: &[Spot<'_, A>]) -> Result<Vec<usize>, AllocError>
    ensures { IfOk result (λ depths. depths.items ≡ map (λ spot. spot.depth) spots.now) }
{
    let mut depths = Vec::with_capacity(alloc, spots.len())?;
    for spot in spots {
        depths.push(spot.depth)?;
    }
    Ok(depths)
}

/// Numbers the hosts and the groups of a tree.
pub(crate) fn number_tree<A: Allocator>(
    alloc: Global,
    tree: &Tree<A>,
) -> Result<Numbers, AllocError>
    ensures within { IfOk result (λ _. IsWithinLimits tree.now) }
    ensures numbered { IfOk result (λ numbers. IsNumbering tree.now (map string_bytes numbers.hosts.items) (map string_bytes numbers.groups.keys)
        numbers.limits.items numbers.depths.items numbers.rows.items numbers.off.items) }
{
    let mut walk = Vec::new(alloc);
    list_spots(tree.root(), 0, &mut walk)?;
    let spots = walk.as_slice();
    let list = list_rows(alloc, spots)?;
    let listed = list.as_slice();
    let hosts = list_hosts(alloc, listed)?;
    let rows = number_rows(alloc, listed, hosts.as_slice())?;
    let off = list_off(alloc, hosts.len(), listed, rows.as_slice())?;
    Ok(Numbers {
        hosts,
        groups: names_of_groups(alloc, spots)?,
        limits: limits_of(alloc, spots)?,
        depths: depths_of(alloc, spots)?,
        rows,
        off,
    })
}
