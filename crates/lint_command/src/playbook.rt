//! The notes on the plays of a playbook.
ghost use Rattle.std.specs.Prelude.{◌≡◌, ◌+◌, ◌<◌, ◌||◌, ◌++◌, ◌^◌, IfOk, OnOk, length};
ghost use Rattle.group_tree.specs.Names.{Name};
ghost use Rattle.domains.specs.Fleets.{IsFleetOf};
ghost use Rattle.result_dependencies.specs.Registers.{is_registered_by};
ghost use Rattle.lint_rules.specs.Notes.{noted};
ghost use Rattle.step_lints.specs.Given.{AreAllGiven};
ghost use Rattle.step_lints.specs.Inside.{crowd_of, foreseen_in, has_missed, has_name, value_in};
ghost use Rattle.step_lints.specs.Places as places;
ghost use Rattle.inventory_lints.specs.Inside.{noted_repeats};
ghost use Rattle.lint_command.specs.AllNotes.{AreNotesOf};
ghost use Rattle.step_lints.specs.Hosts.{down_for, waiting_for};
ghost use Rattle.lint_command.specs.Playbooks.{batch_notes, play_notes, plays_notes, steps_notes};

use crate::batches::{failure_note, list_smallest};
use crate::context::Context;
use crate::near::with_near;
use crate::targets::{Targets, warning_of};
use crate::unlimited::unlimited_note;
use domains::Fleet;
use group_tree::Tree;
use host_vars::layered_all;
use inventory_lints::{Repeats, list_fleet_notes};
use lint_rules::{Notes, Numbered, StepPath};
use play_model::Play;
use std::alloc::{AllocError, Allocator, Global};
use step_lints::{
    MissingNames, Registered, Results, StepContext, UnsetNames, WaitingHosts, defined_names,
    local_play_note, warn_step,
};
use undefined_names::Registry;

/// Adds what is noted of the steps of a play, and the names under which they register results.
fn warn_steps<'a>(
    alloc: Global,
    notes: &mut Notes<'a>,
    crowd: &WaitingHosts<'a, '_>,
    registry: &Registry<'a>,
    registered: &mut Registered<'a>,
    numbered: Numbered<'a>,
) -> Result<(), AllocError>
    ensures notes { OnOk result (notes.new ≡ notes.old ++ steps_notes (has_name registered.old) (crowd_of crowd.now)
        (foreseen_in registry.now.fleet.now registry.now.plays.now crowd.now.lacks.now.vars.now numbered.entry.number) numbered.entry.number numbered.entry.play.now) }
    ensures registered { OnOk result ((name : Name) → has_name registered.new name
        ≡ (has_name registered.old name || is_registered_by numbered.entry.play.now.steps.items name)) }
{
    let play = numbered.play;
    let steps = play.steps();
    for place in 0..steps.len() {
        let step = &steps[place];
        let at = StepPath::of(numbered, place);
        let asked = UnsetNames {
            registered,
            crowd: *crowd,
            stand: StepContext {
                registry,
                number: numbered.number,
                place,
            },
        };
        warn_step(alloc, notes, &asked, play, at, step)?;
        registered.add(step)?;
    }
    Ok(())
}

/// Adds what is noted of a play's hosts and batches, the smallest of which has this size. Here plays are counted from 1.
fn warn_batches<'a>(
    notes: &mut Notes<'a>,
    scene: Context<'a, '_>,
    targets: &Targets,
    numbered: Numbered<'_>,
    smallest: Option<usize>,
) -> Result<(), AllocError>
    requires waiting { targets.now.waiting.items ≡ waiting_for scene.fleet.now numbered.play.now }
    requires down { targets.now.down.items ≡ down_for scene.fleet.now numbered.play.now }
    ensures { OnOk result (notes.new ≡ notes.old ++ batch_notes scene.entry.fleet.now smallest numbered.entry.number numbered.entry.play.now) }
{
    let fleet = scene.fleet;
    let play = numbered.play;
    let number = numbered.number;
    let waiting = targets.waiting.as_slice();
    notes.add(warning_of(fleet, number, targets))?;
    notes.add(unlimited_note(fleet, number, waiting))?;
    notes.add(failure_note(number, play.max_fail(), smallest))?;
    Ok(())
}

/// Adds what is noted of where a play's steps run, before any of them.
fn warn_local<'a>(
    alloc: Global,
    notes: &mut Notes<'a>,
    crowd: &WaitingHosts<'a, '_>,
    registry: &Registry<'a>,
    numbered: Numbered<'a>,
) -> Result<(), AllocError>
    requires { numbered.number < 2 ^ 63 }
    ensures { OnOk result (notes.new ≡ notes.old ++ noted (places.local_play_note (crowd_of crowd.now)
        (foreseen_in registry.now.fleet.now registry.now.plays.now crowd.now.lacks.now.vars.now numbered.entry.number) (numbered.entry.number + 1) numbered.entry.play.now)) }
{
    let stand = StepContext {
        registry,
        number: numbered.number,
        place: 0,
    };
    let note = local_play_note(alloc, crowd, stand, numbered.number + 1, numbered.play)?;
    notes.add(note)
}

/// Adds what is noted of a play, and the names under which its steps register results.
fn warn_play<'a>(
    alloc: Global,
    notes: &mut Notes<'a>,
    scene: Context<'a, '_>,
    registered: &mut Registered<'a>,
    numbered: Numbered<'a>,
    smallest: Option<usize>,
) -> Result<(), AllocError>
    requires number { numbered.number < 2 ^ 63 }
    requires given { AreAllGiven (has_missed scene.given.now) scene.vars.now }
    ensures notes { OnOk result (notes.new ≡ notes.old
        ++ play_notes scene.entry.fleet.now (value_in scene.entry.vars.now) (has_missed scene.entry.given.now)
        (foreseen_in scene.entry.registry.now.fleet.now scene.entry.registry.now.plays.now scene.entry.vars.now numbered.entry.number)
        (has_name registered.old) smallest numbered.entry.number numbered.entry.play.now) }
    ensures registered { OnOk result ((name : Name) → has_name registered.new name
        ≡ (has_name registered.old name || is_registered_by numbered.entry.play.now.steps.items name)) }
{
    let fleet = scene.fleet;
    let targets = Targets::of(alloc, fleet, numbered.play)?;
    let from_one = Numbered {
        number: numbered.number + 1,
        play: numbered.play,
    };
    warn_batches(notes, scene, &targets, from_one, smallest)?;
    let steps = numbered.play.steps();
    let waiting = targets.waiting.as_slice();
    let lacks = MissingNames::of(alloc, scene.vars, waiting, scene.given, steps)?;
    let results = Results::of(alloc, &lacks, steps)?;
    let crowd = WaitingHosts {
        fleet,
        lacks: &lacks,
        results: &results,
    };
    warn_local(alloc, notes, &crowd, scene.registry, numbered)?;
    warn_steps(alloc, notes, &crowd, scene.registry, registered, numbered)?;
    Ok(())
}

/// Adds what is noted of the plays; of each the size of its smallest batch is given.
fn warn_plays<'a>(
    alloc: Global,
    notes: &mut Notes<'a>,
    scene: Context<'a, '_>,
    sizes: &[Option<usize>],
    plays: &'a [Play],
) -> Result<(), AllocError>
    requires sizes { length sizes.now ≡ length plays.now }
    requires given { AreAllGiven (has_missed scene.given.now) scene.vars.now }
    ensures { OnOk result (notes.new ≡ notes.old ++ plays_notes scene.entry.fleet.now (value_in scene.entry.vars.now) (has_missed scene.entry.given.now)
        (foreseen_in scene.entry.registry.now.fleet.now scene.entry.registry.now.plays.now scene.entry.vars.now) sizes.now plays.now) }
{
    let mut registered = Registered::new(alloc);
    for number in 0..plays.len() {
        let numbered = Numbered {
            number,
            play: &plays[number],
        };
        let smallest = sizes[number];
        warn_play(alloc, notes, scene, &mut registered, numbered, smallest)?;
    }
    Ok(())
}

/// Lists the notes on these keys, and after them all those on a fleet and on these plays, by the variables of the tree of which the fleet was built. Fails only if an allocation fails.
pub(crate) fn list_notes<'a, A: Allocator>(
    alloc: Global,
    repeats: &'a Repeats,
    tree: &'a Tree<A>,
    fleet: &'a Fleet,
    plays: &'a [Play],
) -> Result<Notes<'a>, AllocError>
    requires { IsFleetOf tree.now fleet.now }
    ensures { IfOk result (AreNotesOf (noted_repeats repeats.now) tree.now fleet.now plays.now) }
{
    let vars = layered_all(alloc, tree, fleet)?;
    let sizes = list_smallest(alloc, fleet, plays)?;
    let mut notes = list_fleet_notes(alloc, repeats, tree, fleet)?;
    let registry = Registry::of(alloc, fleet, plays)?;
    let given = defined_names(alloc, tree)?;
    let scene = Context {
        fleet,
        vars: vars.as_slice(),
        given: &given,
        registry: &registry,
    };
    warn_plays(alloc, &mut notes, scene, sizes.as_slice(), plays)?;
    with_near(alloc, &notes, &given, plays)
}
