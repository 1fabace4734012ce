//! What holds of every recap.
ghost use Rattle.run_command.specs.Laws.{BrokenRecapsAreOfSafeRolls, FaultsFromAreOfSafeRolls, OneRecap, OneRecapByPlays, RecapsAreOfSafeRolls, RunsFromAreOfSafeRolls};

use roll_core::Runner;

/// What is printed of a run that came to its end is one function of the bytes of the inventory and the playbook and of how each program
/// ends, where a host's step ends alike in all plays: how many programs ran at once, and in which order they ended, doesn't show in it.
pub fn one_recap()
    ensures { OneRecap }
{}

/// The same where the program of a host's step may end otherwise in each play of the playbook, whatever the two runners may tell.
pub fn one_recap_by_plays<R: Runner, S: Runner>(one: &R, other: &S)
    ensures { OneRecapByPlays (R.may one.now) (S.may other.now) }
{}

/// What a recap tells of, whole or broken off, was safe: on the fleet of the inventory, at no moment of any of the runs was a group over its limit.
pub fn recaps_are_of_safe_rolls<R: Runner>(runner: &R)
    ensures ended { RecapsAreOfSafeRolls (R.may runner.now) }
    ensures broken { BrokenRecapsAreOfSafeRolls (R.may runner.now) }
{}

/// So was what was started in the midst of a file, from how it began: whether its recap went out, or a fault tells of it.
pub fn runs_from_are_of_safe_rolls<R: Runner>(runner: &R)
    ensures ended { RunsFromAreOfSafeRolls (R.may runner.now) }
    ensures broken { FaultsFromAreOfSafeRolls (R.may runner.now) }
{}
