//! The table of limits, where a run broke off.
ghost use Rattle.std.specs.Prelude.{◌≡◌, ◌≤◌, IfErr, IfOk, OnOk, length};
ghost use Rattle.domains.specs.Ids.{host_numbers};
ghost use Rattle.journal.specs.Lines.{max_body};
ghost use Rattle.resume_preview.specs.Limits.{HaveStood, IsTrueOfTable, RefusesTable, WritesTable};

use crate::fault::OutlookFault;
use crate::journal_match::read_begun;
use domains::Fleet;
use fleet_states::Status;
use plan_command::read_fleet;
use recap::write_limits_by;
use resume_state::{ResumeFault, Wish, mended_hosts};
use run_command::RunTextFault;
use std::alloc::Global;
use std::io::Write;

/// How the hosts of a fleet stand by the journal of a run that began with this inventory, as the run leaves them: the hosts that are named are up by now.
fn stand_by(
    alloc: Global,
    fleet: &Fleet,
    inventory: &[u8],
    wish: Wish<'_>,
) -> Result<Vec<Status>, ResumeFault>
    requires { length wish.journal.now ≤ max_body }
    ensures ok { IfOk result (λ statuses. HaveStood fleet.now inventory.now wish.entry.journal.now wish.entry.mended.now wish.entry.takes_others statuses.items) }
    ensures err { IfErr result (RefusesTable fleet.now inventory.now wish.entry.journal.now wish.entry.mended.now wish.entry.takes_others) }
{
    let mended = match mended_hosts(alloc, fleet, wish.mended) {
        Ok(mended) => mended,
        Err(fault) => return Err(fault),
    };
    let journal = match read_begun(alloc, fleet, inventory, wish.takes_others, wish.journal) {
        Ok(journal) => journal,
        Err(fault) => return Err(fault),
    };
    match journal.resumed(alloc, mended.as_slice()) {
        Ok(journal) => Ok(journal.statuses),
        Err(_refused) => Err(ResumeFault::Memory),
    }
}

/// Writes the table of the limits of an inventory, given as the bytes of its text, where a run stands that began with it, by its journal: those hosts of a group are down that are so by
/// the journal, who was at work among them, but for those that are named as up by now. More may be down than the limit: the room is 0 then, and that is no fault.
/// Nothing goes out before all was accepted: first the inventory's faults are told, then the names of hosts that are up by now, then the journal's.
/// Where a write fails, exactly the first bytes of the table went out, as many as the fault says. Writing takes no memory.
pub fn limits_from<W: Write>(
    alloc: Global,
    inventory: &[u8],
    wish: Wish<'_>,
    out: &mut W,
) -> Result<(), OutlookFault>
    requires { length wish.journal.now ≤ max_body }
    ensures ok { OnOk result (WritesTable inventory.now wish.entry.journal.now wish.entry.mended.now wish.entry.takes_others (W.contents out.old) (W.contents out.new)) }
    ensures err { IfErr result (IsTrueOfTable inventory.now wish.entry.journal.now wish.entry.mended.now wish.entry.takes_others (W.contents out.old) (W.contents out.new)) }
{
    let fleet = match read_fleet(alloc, inventory) {
        Ok(fleet) => fleet,
        Err(fault) => {
            let fault = ResumeFault::Texts(RunTextFault::Refused(fault));
            return Err(OutlookFault::Resume(fault));
        }
    };
    let statuses = match stand_by(alloc, &fleet, inventory, wish) {
        Ok(statuses) => statuses,
        Err(fault) => return Err(OutlookFault::Resume(fault)),
    };
    match write_limits_by(&fleet, statuses.as_slice(), out) {
        Ok(()) => Ok(()),
        Err(fault) => Err(OutlookFault::Write(fault)),
    }
}
