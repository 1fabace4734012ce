//! What hosts owe that are mended.
ghost use Rattle.std.specs.Prelude.{◌∷◌, []};
ghost use Rattle.domains.specs.Ids.{host_numbers};
ghost use Rattle.resume_state.specs.Debts.{OweAmong};

use group_tree::HostId;
use host_vars::Vars;

/// The hosts as they begin the play that goes on: these owe its handlers. A number that no host has is passed over.
pub(crate) fn with_debts(mut vars: Vec<Vars>, owing: &[HostId]) -> Vec<Vars>
    ensures { OweAmong (host_numbers owing.now) vars.items result.items }
{
    owe_all(vars.as_mut_slice(), owing);
    vars
}

fn owe_all(vars: &mut [Vars], owing: &[HostId])
    ensures { OweAmong (host_numbers owing.now) vars.old vars.new }
{
    for host in owing {
        owe_one(vars, *host);
    }
}

fn owe_one(vars: &mut [Vars], host: HostId)
    ensures { OweAmong (host.index ∷ []) vars.old vars.new }
{
    if host.index < vars.len() {
        vars[host.index].set_debt(true);
    }
}
