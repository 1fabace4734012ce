//! The note on hosts that no limit holds, where limits hold others of their play.
ghost use Rattle.std.specs.Prelude.{◌≡◌, count_by, option_map};
ghost use Rattle.std.specs.List.{find};
ghost use Rattle.lint_rules.specs.Notes.{seen};
ghost use Rattle.lint_command.specs.Unlimited as model;

use domains::Fleet;
use group_tree::HostId;
use lint_rules::{Missing, Note};
use recap::host_name;

#[tactic(auto, using(crate::proofs::UnlimitedLemmas::chain_of))]
fn is_unlimited(fleet: &Fleet, host: usize) -> bool
    ensures { result ≡ model.is_unlimited fleet.now host }
{
    if host < fleet.hosts() {
        fleet.chain(HostId { index: host }).is_empty()
    } else {
        true
    }
}

fn count_unlimited(fleet: &Fleet, waiting: &[usize]) -> usize
    ensures { result ≡ count_by (model.is_unlimited fleet.now) waiting.now }
{
    waiting
        .iter()
        .filter(|host| is_unlimited(fleet, **host))
        .count()
}

fn first_unlimited(fleet: &Fleet, waiting: &[usize]) -> Option<usize>
    ensures { result ≡ find (model.is_unlimited fleet.now) waiting.now }
{
    waiting
        .iter()
        .copied()
        .find(|host| is_unlimited(fleet, *host))
}

/// What is noted of the hosts that wait for the play with this number.
pub(crate) fn unlimited_note<'a>(
    fleet: &'a Fleet,
    number: usize,
    waiting: &[usize],
) -> Option<Note<'a>>
    ensures { option_map seen result ≡ model.unlimited_note fleet.now number waiting.now }
{
    let hosts = count_unlimited(fleet, waiting);
    if hosts == waiting.len() {
        return None;
    }
    match first_unlimited(fleet, waiting) {
        Some(first) => Some(Note::UnlimitedHosts {
            play: number,
            missing: Missing {
                hosts,
                waiting: waiting.len(),
                host: host_name(fleet, HostId { index: first }),
            },
        }),
        None => None,
    }
}
