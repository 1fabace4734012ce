//! The hosts that a play is for.
ghost use Rattle.std.specs.Prelude.{◌≡◌, ◌∷◌, ◌++◌, [], IfOk, OnOk, filter, not, option_map};
ghost use Rattle.step_lints.specs.Hosts as model;
ghost use Rattle.step_lints.specs.Hosts.{down_for, hosts_note, waiting_for};
ghost use Rattle.lint_rules.specs.Notes.{seen};

use domains::Fleet;
use group_tree::HostId;
use lint_rules::Note;
use play_model::Play;
use recap::host_name;
use std::alloc::{AllocError, Global};

/// The hosts that a play's pattern names, by their numbers, rising: those that are down at the start, and the others, which wait.
#[derive(Drop)]
pub(crate) struct Targets {
    pub(crate) waiting: Vec<usize>,
    pub(crate) down: Vec<usize>,
}

/// Whether the host is down at the start; a number that no host has isn't.
fn is_off(fleet: &Fleet, host: usize) -> bool
    ensures { result ≡ model.is_off fleet.now host }
{
    if host < fleet.hosts() {
        fleet.is_off(HostId { index: host })
    } else {
        false
    }
}

impl Targets {
    fn add(&mut self, fleet: &Fleet, host: usize) -> Result<(), AllocError>
        ensures waiting { OnOk result (self.new.waiting.items ≡ self.old.waiting.items ++ filter (λ host. not (model.is_off fleet.now host)) (host ∷ [])) }
        ensures down { OnOk result (self.new.down.items ≡ self.old.down.items ++ filter (model.is_off fleet.now) (host ∷ [])) }
    {
        if is_off(fleet, host) {
            self.down.push(host)?;
        } else {
            self.waiting.push(host)?;
        }
        Ok(())
    }

    /// The hosts of a play whose pattern was looked up. It fails for want of memory alone.
    pub(crate) fn of(alloc: Global, fleet: &Fleet, play: &Play) -> Result<Targets, AllocError>
        ensures waiting { IfOk result (λ targets. targets.waiting.items ≡ waiting_for fleet.now play.now) }
        ensures down { IfOk result (λ targets. targets.down.items ≡ down_for fleet.now play.now) }
    {
        let mut targets = Targets {
            waiting: Vec::new(alloc),
            down: Vec::new(alloc),
        };
        let Ok(hosts) = fleet.target(alloc, play.pattern()) else {
            return Err(AllocError);
        };
        let named = hosts.as_slice();
        for host in named {
            targets.add(fleet, host.index)?;
        }
        Ok(targets)
    }
}

/// What is noted of the hosts of the play with this number.
pub(crate) fn warning_of<'a>(fleet: &'a Fleet, number: usize, targets: &Targets) -> Option<Note<'a>>
    ensures { option_map seen result ≡ hosts_note fleet.now number targets.now.waiting.items targets.now.down.items }
{
    if targets.waiting.is_empty() {
        return Some(Note::NoHosts { play: number });
    }
    match targets.down.as_slice() {
        [] => None,
        [first, ..] => Some(Note::DownHosts {
            play: number,
            hosts: targets.down.len(),
            host: host_name(fleet, HostId { index: *first }),
        }),
    }
}
