//! The first name that is missed in a file.
ghost use Rattle.std.specs.Prelude.{◌≡◌, ◌<◌, ◌^◌, All, IfOk, flat_map, length, option_map};
ghost use Rattle.domains.specs.Ids.{host_numbers};
ghost use Rattle.host_vars.specs.HostVars.{HasNoResult};
ghost use Rattle.command_preview.specs.Inside.{views_of};
ghost use Rattle.undefined_names.specs.NoValues as spec;
ghost use Rattle.undefined_names.specs.NoValues.{first_of, miss_seen, misses_on};

use crate::registry::Registry;
use crate::step_location::StepLocation;
use crate::undefined_read::UndefinedRead;
use command_preview::list_hosts;
use group_tree::HostId;
use host_vars::Vars;
use play_model::Play;
use std::alloc::{AllocError, Global};

/// A file's plays for a fleet, and the variables of its hosts.
#[derive(Clone, Copy)]
pub(crate) struct Context<'p, 's> {
    pub(crate) registry: &'s Registry<'p>,
    pub(crate) vars: &'s [Vars],
}

/// The first that the step there misses.
fn first_on<'p>(
    alloc: Global,
    scene: &Context<'p, '_>,
    spot: StepLocation,
) -> Result<Option<UndefinedRead<'p>>, AllocError>
    requires bare { All HasNoResult scene.now.vars.now }
    requires within { spot.host.index < length scene.now.vars.now }
    requires play { spot.play < 2 ^ 32 }
    requires place { spot.place < 2 ^ 32 }
    ensures { IfOk result (λ found. option_map (miss_seen scene.now.registry.now.fleet.now) found
        ≡ first_of (misses_on scene.now.registry.now.fleet.now (views_of scene.now.vars.now) scene.now.registry.now.plays.now spot.play spot.place spot.host.index)) }
{
    let vars = &scene.vars[spot.host.index];
    let names = scene.registry.missed_names(alloc, spot, vars)?;
    match names.as_slice().first() {
        Some(name) => Ok(Some(UndefinedRead {
            play: spot.play + 1,
            step: spot.place + 1,
            host: spot.host,
            name: *name,
        })),
        None => Ok(None),
    }
}

/// The first that the step there misses on one of the hosts.
#[tactic(auto, using(crate::proofs::Firsts::first_each_is))]
fn first_of_step<'p>(
    alloc: Global,
    scene: &Context<'p, '_>,
    play: usize,
    place: usize,
    hosts: &[HostId],
) -> Result<Option<UndefinedRead<'p>>, AllocError>
    requires bare { All HasNoResult scene.now.vars.now }
    requires within { All (λ host. host.index < length scene.now.vars.now) hosts.now }
    requires play { play < 2 ^ 32 }
    requires place { place < 2 ^ 32 }
    ensures { IfOk result (λ found. option_map (miss_seen scene.now.registry.now.fleet.now) found
        ≡ first_of (flat_map (misses_on scene.now.registry.now.fleet.now (views_of scene.now.vars.now) scene.now.registry.now.plays.now play place) (host_numbers hosts.now))) }
{
    for host in hosts {
        let host = *host;
        match first_on(alloc, scene, StepLocation { play, place, host })? {
            None => {}
            found => return Ok(found),
        }
    }
    Ok(None)
}

/// The first that a step of the play with this number, from 0, misses.
#[tactic(auto, using(crate::proofs::Firsts::first_at_is))]
fn first_of_play<'p>(
    alloc: Global,
    scene: &Context<'p, '_>,
    number: usize,
    play: &'p Play,
) -> Result<Option<UndefinedRead<'p>>, AllocError>
    requires bare { All HasNoResult scene.now.vars.now }
    requires all { length scene.now.vars.now ≡ length scene.now.registry.now.fleet.now.hosts }
    requires small { number < 2 ^ 32 }
    ensures { IfOk result (λ found. option_map (miss_seen scene.now.registry.now.fleet.now) found
        ≡ first_of (spec.misses_of_play scene.now.registry.now.fleet.now (views_of scene.now.vars.now) scene.now.registry.now.plays.now number play.now)) }
{
    let hosts = list_hosts(alloc, scene.registry.fleet, play)?;
    for place in 0..play.steps().len() {
        match first_of_step(alloc, scene, number, place, hosts.as_slice())? {
            None => {}
            found => return Ok(found),
        }
    }
    Ok(None)
}

/// The first that a step of one of the plays misses.
#[tactic(auto, using(crate::proofs::Firsts::first_at_is))]
pub(crate) fn first_of_plays<'p>(
    alloc: Global,
    scene: &Context<'p, '_>,
) -> Result<Option<UndefinedRead<'p>>, AllocError>
    requires bare { All HasNoResult scene.now.vars.now }
    requires all { length scene.now.vars.now ≡ length scene.now.registry.now.fleet.now.hosts }
    requires few { length scene.now.registry.now.plays.now < 2 ^ 32 }
    ensures { IfOk result (λ found. option_map (miss_seen scene.now.registry.now.fleet.now) found
        ≡ first_of (spec.misses_of_plays scene.now.registry.now.fleet.now (views_of scene.now.vars.now) scene.now.registry.now.plays.now)) }
{
    let plays = scene.registry.plays;
    for number in 0..plays.len() {
        match first_of_play(alloc, scene, number, &plays[number])? {
            None => {}
            found => return Ok(found),
        }
    }
    Ok(None)
}
