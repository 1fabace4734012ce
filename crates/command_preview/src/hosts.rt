//! The lines of a play.
ghost use Rattle.std.specs.Prelude.{◌≡◌, ◌<◌, ◌+◌, ◌^◌, ◌++◌, ◌∷◌, [], All, IfOk, OnOk, cond, length, nat_lt};
ghost use Rattle.std.specs.List.{list_any};
ghost use Rattle.domains.specs.Ids.{host_numbers};
ghost use Rattle.domains.specs.Numbered.{host_at};
ghost use Rattle.fleet_states.specs.Starts.{start_statuses};
ghost use Rattle.host_vars.specs.HostVars.{HasNoResult, known_of, variables_of};
ghost use Rattle.play_model.specs.Plays.{HasPlainWords};
ghost use Rattle.play_forecast.specs.PlayPlans.{targets};
ghost use Rattle.command_preview.specs.Previews.{foretold};
ghost use Rattle.command_preview.specs.Holes.{unsure_from};
ghost use Rattle.command_preview.specs.Inside.{Tells, views_of};
ghost use Rattle.command_preview.specs.Lines.{fails, hosts_of, is_failing, line_of, lines_of_host, lines_of_play, lines_text, view_at};

use crate::foreseen::Foreseen;
use crate::holes::Holes;
use crate::lines::write_line;
use crate::step_preview::foretell;
use batch_plan::start;
use bounded_io::TextWriter;
use domains::Fleet;
use fleet_states::{Status, status_of};
use group_tree::HostId;
use host_vars::Vars;
use play_model::{Play, Step};
use std::alloc::{AllocError, Global};
use std::io::Write;

/// A fleet, of each of its hosts the variables, and the names that steps register.
#[derive(Clone, Copy)]
pub(crate) struct Context<'f, 'h> {
    pub(crate) fleet: &'f Fleet,
    pub(crate) vars: &'f [Vars],
    pub(crate) holes: &'h Holes<'f>,
}

/// A play for a host with its variables, behind so many steps of the file.
#[derive(Clone, Copy)]
struct Stage<'s> {
    play: &'s Play,
    vars: &'s Vars,
    holes: &'s Holes<'s>,
    before: usize,
}

/// Goes on with the line of the step at this place of the play, from 0. Whether it says that the step fails.
fn write_step<W: Write>(
    alloc: Global,
    text: &mut TextWriter<'_, W>,
    host: &str,
    stage: &Stage<'_>,
    place: usize,
    step: &Step,
) -> Result<bool, AllocError>
    requires plain { HasPlainWords step.now }
    requires before { stage.now.before < 2 ^ 32 }
    requires place { place < 2 ^ 32 }
    ensures { let told = foretold (unsure_from stage.now.holes.now.names stage.now.before place) (nat_lt place stage.now.play.now.tasks) (known_of stage.now.vars.now) step.now in
        Tells W.contents text.old text.new (line_of host.now (place + 1) told) (is_failing told.is_sure told.request) result }
{
    let foreseen = Foreseen {
        vars: stage.vars,
        holes: stage.holes,
        before: stage.before + place,
    };
    let told = foretell(alloc, step, place < stage.play.tasks(), &foreseen)?;
    write_line(text, host, place as u64 + 1, &told);
    Ok(told.is_failing())
}

/// Goes on with the lines of all steps of the play. Whether one says that its step fails.
fn write_steps<W: Write>(
    alloc: Global,
    text: &mut TextWriter<'_, W>,
    host: &str,
    stage: &Stage<'_>,
) -> Result<bool, AllocError>
    requires bare { HasNoResult stage.now.vars.now }
    requires before { stage.now.before < 2 ^ 32 }
    ensures { let lines = lines_of_host (unsure_from stage.now.holes.now.names stage.now.before) stage.now.play.now host.now (variables_of stage.now.vars.now) in
        Tells W.contents text.old text.new (lines_text lines) (list_any fails lines) result }
{
    let steps = stage.play.steps();
    let mut fails = false;
    for place in 0..steps.len() {
        fails |= write_step(alloc, text, host, stage, place, &steps[place])?;
    }
    Ok(fails)
}

/// Goes on with the lines of a host for a play, whose steps stand behind so many of the file. Whether one says that its step fails.
fn write_host<W: Write>(
    alloc: Global,
    text: &mut TextWriter<'_, W>,
    scene: &Context<'_, '_>,
    play: &Play,
    before: usize,
    host: HostId,
) -> Result<bool, AllocError>
    requires bare { All HasNoResult scene.now.vars.now }
    requires all { length scene.now.vars.now ≡ length scene.now.fleet.now.hosts }
    requires within { host.index < length scene.now.fleet.now.hosts }
    requires small { before < 2 ^ 32 }
    ensures { let lines = lines_of_host (unsure_from scene.now.holes.now.names before) play.now (host_at scene.now.fleet.now.hosts host.index) (view_at (views_of scene.now.vars.now) host.index) in
        Tells W.contents text.old text.new (lines_text lines) (list_any fails lines) result }
{
    let stage = Stage {
        play,
        vars: &scene.vars[host.index],
        holes: scene.holes,
        before,
    };
    write_steps(alloc, text, scene.fleet.name(host), &stage)
}

/// The statuses with which a run of the play would begin, if it came first. Only want of memory refuses them, where its pattern was looked up.
pub fn start_play(alloc: Global, fleet: &Fleet, play: &Play) -> Result<Vec<Status>, AllocError>
    ensures { IfOk result (λ statuses. statuses.items ≡ start_statuses fleet.now (targets fleet.now play.now)) }
{
    match fleet.target(alloc, play.pattern()) {
        Ok(hosts) => start(alloc, fleet, hosts.as_slice()),
        Err(_refused) => Err(AllocError),
    }
}

fn push_if(hosts: &mut Vec<HostId>, host: HostId, is_wanted: bool) -> Result<(), AllocError>
    ensures { OnOk result (hosts.new.items ≡ hosts.old.items ++ cond is_wanted (host ∷ []) []) }
{
    if is_wanted {
        hosts.push(host)?;
    }
    Ok(())
}

/// The hosts that the play is for and that aren't down at the start, by name.
pub fn list_hosts(alloc: Global, fleet: &Fleet, play: &Play) -> Result<Vec<HostId>, AllocError>
    ensures are { IfOk result (λ hosts. host_numbers hosts.items ≡ hosts_of fleet.now play.now) }
    ensures within { IfOk result (λ hosts. All (λ host. host.index < length fleet.now.hosts) hosts.items) }
{
    let statuses = start_play(alloc, fleet, play)?;
    let mut hosts = Vec::new(alloc);
    for index in 0..fleet.hosts() {
        let host = HostId { index };
        let is_waiting = status_of(statuses.as_slice(), host).is_waiting();
        push_if(&mut hosts, host, is_waiting)?;
    }
    Ok(hosts)
}

/// Goes on with the lines of a play, whose steps stand behind so many of the file. Whether one says that its step fails.
pub(crate) fn write_play<W: Write>(
    alloc: Global,
    text: &mut TextWriter<'_, W>,
    scene: &Context<'_, '_>,
    play: &Play,
    before: usize,
) -> Result<bool, AllocError>
    requires bare { All HasNoResult scene.now.vars.now }
    requires all { length scene.now.vars.now ≡ length scene.now.fleet.now.hosts }
    requires small { before < 2 ^ 32 }
    ensures { let lines = lines_of_play scene.now.fleet.now (views_of scene.now.vars.now) (unsure_from scene.now.holes.now.names before) play.now in
        Tells W.contents text.old text.new (lines_text lines) (list_any fails lines) result }
{
    let hosts = list_hosts(alloc, scene.fleet, play)?;
    let mut fails = false;
    for host in &hosts {
        fails |= write_host(alloc, text, scene, play, before, *host)?;
    }
    Ok(fails)
}
