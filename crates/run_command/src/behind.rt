//! What is told beside the recap.
use crate::beginning::Beginning;
use crate::down::down_lines;
use crate::left::Left;
use domains::Fleet;
use play_model::Play;
use roll_core::Observer;
use run_diagnosis::{Ended, diagnosis_lines, has_why, left_out_lines};
use std::alloc::{AllocError, Global};

/// Tells of the hosts that the plays of a file name and that are off by the statuses with which the first of them begins, where anybody is told anything and there is memory
/// for it. Where plays of the file were run before, it was told with the first.
pub(crate) fn report_left_out<T: Observer>(
    alloc: Global,
    watch: &mut T,
    fleet: &Fleet,
    plays: &[Play],
    beginning: &Beginning,
) {
    if beginning.plays_before > 0 || !watch.is_told() {
        return;
    }
    let statuses = beginning.start.statuses.as_slice();
    if let Ok(lines) = left_out_lines(alloc, fleet, statuses, plays) {
        watch.note(lines.as_slice());
    }
}

/// What is to be told behind the recap of plays of a file: why hosts are down, or, where the recap couldn't be written whole, its lines of those hosts.
fn lines_behind(
    alloc: Global,
    fleet: &Fleet,
    plays: &[Play],
    left: &Left<'_>,
    is_whole: bool,
) -> Result<Vec<u8>, AllocError> {
    if !is_whole {
        return down_lines(alloc, fleet, left.statuses(), left.counts());
    }
    if !has_why(left.end(), left.statuses()) {
        return Ok(Vec::new(alloc));
    }
    let played = left.played(alloc, plays)?;
    let ended = Ended {
        fleet,
        several: plays.len() > 1,
        statuses: left.statuses(),
        call: left.call,
    };
    diagnosis_lines(alloc, &ended, played.as_slice())
}

/// Tells behind a recap, which was written whole or not, what there is to tell of the runs, where anybody is told anything and there is memory
/// for it.
pub(crate) fn report_behind<T: Observer>(
    alloc: Global,
    watch: &mut T,
    fleet: &Fleet,
    plays: &[Play],
    left: &Left<'_>,
    is_whole: bool,
) {
    if !watch.is_told() {
        return;
    }
    if let Ok(lines) = lines_behind(alloc, fleet, plays, left, is_whole) {
        watch.keep(lines);
    }
}
