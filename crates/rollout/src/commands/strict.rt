//! Whether each name that a run may look for has a value.
ghost use Rattle.std.specs.Prelude.{◌≡◌, IfErr, OnOk, true};
ghost use Rattle.rollout.specs.Strictness.{FindsNames, RefusesNames};

use crate::fault::Fault;
use std::alloc::Global;
use undefined_names::first_missing;

/// Looks, where that is asked for, for a name that a step of the plays may look for in vain on a host.
pub(crate) fn check_names(
    alloc: Global,
    is_strict: bool,
    inventory: &[u8],
    playbook: &[u8],
) -> Result<(), Fault>
    ensures ok { OnOk result (FindsNames is_strict inventory.now playbook.now) }
    ensures strict { IfErr result (λ _. is_strict ≡ true) }
    ensures err { IfErr result (RefusesNames inventory.now playbook.now) }
{
    if is_strict {
        find_names(alloc, inventory, playbook)
    } else {
        Ok(())
    }
}

fn find_names(alloc: Global, inventory: &[u8], playbook: &[u8]) -> Result<(), Fault>
    ensures ok { OnOk result (FindsNames true inventory.now playbook.now) }
    ensures err { IfErr result (RefusesNames inventory.now playbook.now) }
{
    match first_missing(alloc, inventory, playbook) {
        Ok(None) => Ok(()),
        Ok(Some(missing)) => Err(Fault::NoValue(missing)),
        Err(fault) => Err(Fault::from(fault)),
    }
}
