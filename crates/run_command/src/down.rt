//! The lines of the hosts that are down.
ghost use Rattle.std.specs.Prelude.{◌≡◌, IfOk, map};
ghost use Rattle.recap.specs.RecapText.{host_lines};
ghost use Rattle.run_command.specs.Recaps as model;

use bounded_io::TextWriter;
use domains::Fleet;
use fleet_states::Status;
use host_track::Counts;
use recap::write_hosts;
use std::alloc::{AllocError, Global};

/// The status of a host that is down; one that isn't counts as idle, which has no line.
fn if_down(status: Status) -> Status
    ensures { result ≡ model.if_down status }
{
    if status.is_down() {
        status
    } else {
        Status::Idle
    }
}

fn only_down(alloc: Global, statuses: &[Status]) -> Result<Vec<Status>, AllocError>
    ensures { IfOk result (λ down. down.items ≡ map model.if_down statuses.now) }
{
    statuses
        .iter()
        .map(|status| if_down(*status))
        .collect(alloc)
}

/// The recap's lines of the hosts that are down.
pub(crate) fn down_lines(
    alloc: Global,
    fleet: &Fleet,
    statuses: &[Status],
    counts: &[Counts],
) -> Result<Vec<u8>, AllocError>
    ensures { IfOk result (λ lines. lines.items ≡ host_lines fleet.now (map model.if_down statuses.now) counts.now) }
{
    let down = only_down(alloc, statuses)?;
    let mut lines = Vec::new(alloc);
    let mut text = TextWriter::new(&mut lines);
    write_hosts(&mut text, fleet, down.as_slice(), counts);
    match text.finish() {
        Ok(()) => Ok(lines),
        Err(_refused) => Err(AllocError),
    }
}
