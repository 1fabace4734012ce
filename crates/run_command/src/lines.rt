//! The recaps of the runs of several plays in lines, one behind the other.
ghost use Rattle.std.specs.Prelude.{◌≡◌, ◌+◌, ◌<◌, ◌≤◌, length};
ghost use Rattle.bounded_io.specs.Writing.{Writes};
ghost use Rattle.recap.specs.RecapText.{recap_text};
ghost use Rattle.run_command.specs.Recaps.{broken_lines_from, facts_text, fault_facts, headed, run_facts, runs_lines_from};

use crate::facts::{recap_of, recap_of_fault};
use bounded_io::TextWriter;
use domains::Fleet;
use recap::{Recap, write_numbered, write_play};
use roll_run::{Run, RunFault, RunsFault};
use std::io::Write;

/// Writes the recap of a play, under its number where the file has several.
fn write_one<W: Write>(
    text: &mut TextWriter<'_, W>,
    fleet: &Fleet,
    several: bool,
    number: u64,
    recap: &Recap<'_>,
)
    ensures { Writes W.contents text.old text.new (headed several number (recap_text fleet.now recap.now)) }
{
    if several {
        write_numbered(text, fleet, number, recap);
    } else {
        write_play(text, fleet, recap);
    }
}

fn write_run<W: Write>(
    text: &mut TextWriter<'_, W>,
    fleet: &Fleet,
    several: bool,
    number: u64,
    run: &Run,
)
    ensures { Writes W.contents text.old text.new (headed several number (facts_text fleet.now (run_facts run.now))) }
{
    write_one(text, fleet, several, number, &recap_of(run));
}

/// Writes the recaps of these runs of the plays behind so many, each under its number in the file, from 1, where that has several plays.
pub(crate) fn write_runs<W: Write>(
    text: &mut TextWriter<'_, W>,
    fleet: &Fleet,
    several: bool,
    plays_before: usize,
    runs: &[Run],
)
    requires { plays_before + length runs.now ≤ 18446744073709551615 }
    ensures { Writes W.contents text.old text.new (runs_lines_from plays_before fleet.now several runs.now) }
{
    for place in 0..runs.len() {
        let number = (plays_before + place) as u64 + 1;
        write_run(text, fleet, several, number, &runs[place]);
    }
}

/// Writes the recap of a run that a fault broke off.
fn write_fault<W: Write>(
    text: &mut TextWriter<'_, W>,
    fleet: &Fleet,
    several: bool,
    number: u64,
    fault: &RunFault,
)
    ensures { Writes W.contents text.old text.new (headed several number (facts_text fleet.now (fault_facts fault.now))) }
{
    write_one(text, fleet, several, number, &recap_of_fault(fault));
}

/// Writes the recaps of runs of which a fault broke the last one off.
pub(crate) fn write_broken<W: Write>(
    text: &mut TextWriter<'_, W>,
    fleet: &Fleet,
    several: bool,
    plays_before: usize,
    fault: &RunsFault,
)
    requires { plays_before + length fault.now.done.items < 18446744073709551615 }
    ensures { Writes W.contents text.old text.new (broken_lines_from plays_before fleet.now several fault.now.done.items fault.now.last) }
{
    let done = fault.done.as_slice();
    write_runs(text, fleet, several, plays_before, done);
    let number = (plays_before + done.len()) as u64 + 1;
    write_fault(text, fleet, several, number, &fault.last);
}
