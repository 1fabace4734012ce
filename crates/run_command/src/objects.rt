//! The recaps of the runs of several plays as one JSON object.
ghost use Rattle.std.specs.Prelude.{◌≡◌, ◌+◌, ◌++◌, ◌<◌, ◌≤◌, length, map, nat_lt};
ghost use Rattle.bounded_io.specs.Writing.{Writes};
ghost use Rattle.json_output.specs.Arrays.{array_text, comma_if, entries_text};
ghost use Rattle.json_output.specs.PlayJson.{facts_of, play_json, recap_json};
ghost use Rattle.run_command.specs.Recaps.{broken_facts, run_facts};

use crate::facts::{recap_of, recap_of_fault};
use bounded_io::TextWriter;
use domains::Fleet;
use json_output::{write_comma, write_play_json};
use recap::Recap;
use roll_run::{Run, RunsFault};
use std::io::Write;

/// Writes the recap of the play at this place of those that were begun, behind so many of the file.
#[tactic(auto, using(bounded_io::proofs::Pieces::pieces_of_text))]
fn write_entry<W: Write>(
    text: &mut TextWriter<'_, W>,
    fleet: &Fleet,
    plays_before: usize,
    place: usize,
    recap: &Recap<'_>,
)
    requires { plays_before + place < 18446744073709551615 }
    ensures { Writes W.contents text.old text.new (comma_if (nat_lt 0 place) ++ play_json fleet.now (plays_before + place + 1) (facts_of recap.now)) }
{
    let number = (plays_before + place) as u64 + 1;
    write_comma(text, 0 < place);
    write_play_json(text, fleet, number, recap);
}

fn write_each_run<W: Write>(
    text: &mut TextWriter<'_, W>,
    fleet: &Fleet,
    plays_before: usize,
    runs: &[Run],
)
    requires { plays_before + length runs.now ≤ 18446744073709551615 }
    ensures { Writes W.contents text.old text.new (entries_text (λ place facts. play_json fleet.now (plays_before + place + 1) facts) (map run_facts runs.now)) }
{
    for place in 0..runs.len() {
        write_entry(text, fleet, plays_before, place, &recap_of(&runs[place]));
    }
}

#[tactic(auto, using(bounded_io::proofs::Pieces::pieces_of_text))]
fn write_array<W: Write>(
    text: &mut TextWriter<'_, W>,
    fleet: &Fleet,
    plays_before: usize,
    runs: &[Run],
)
    requires { plays_before + length runs.now ≤ 18446744073709551615 }
    ensures { Writes W.contents text.old text.new (array_text (λ place facts. play_json fleet.now (plays_before + place + 1) facts) (map run_facts runs.now)) }
{
    text.write_str("[");
    write_each_run(text, fleet, plays_before, runs);
    text.write_str("]");
}

/// Writes the recaps of these runs of the plays behind so many.
#[tactic(auto, using(bounded_io::proofs::Pieces::pieces_of_text))]
pub(crate) fn write_runs_json<W: Write>(
    text: &mut TextWriter<'_, W>,
    fleet: &Fleet,
    plays_before: usize,
    runs: &[Run],
)
    requires { plays_before + length runs.now ≤ 18446744073709551615 }
    ensures { Writes W.contents text.old text.new (recap_json plays_before fleet.now (map run_facts runs.now)) }
{
    text.write_str("{\"plays\":");
    write_array(text, fleet, plays_before, runs);
    text.write_str("}\n");
}

fn write_each_of_broken<W: Write>(
    text: &mut TextWriter<'_, W>,
    fleet: &Fleet,
    plays_before: usize,
    fault: &RunsFault,
)
    requires { plays_before + length fault.now.done.items < 18446744073709551615 }
    ensures { Writes W.contents text.old text.new (entries_text (λ place facts. play_json fleet.now (plays_before + place + 1) facts) (broken_facts fault.now.done.items fault.now.last)) }
{
    let done = fault.done.as_slice();
    write_each_run(text, fleet, plays_before, done);
    let last = recap_of_fault(&fault.last);
    write_entry(text, fleet, plays_before, done.len(), &last);
}

#[tactic(auto, using(bounded_io::proofs::Pieces::pieces_of_text))]
fn write_array_of_broken<W: Write>(
    text: &mut TextWriter<'_, W>,
    fleet: &Fleet,
    plays_before: usize,
    fault: &RunsFault,
)
    requires { plays_before + length fault.now.done.items < 18446744073709551615 }
    ensures { Writes W.contents text.old text.new (array_text (λ place facts. play_json fleet.now (plays_before + place + 1) facts) (broken_facts fault.now.done.items fault.now.last)) }
{
    text.write_str("[");
    write_each_of_broken(text, fleet, plays_before, fault);
    text.write_str("]");
}

/// Writes the recaps of runs of which a fault broke the last one off.
#[tactic(auto, using(bounded_io::proofs::Pieces::pieces_of_text))]
pub(crate) fn write_broken_json<W: Write>(
    text: &mut TextWriter<'_, W>,
    fleet: &Fleet,
    plays_before: usize,
    fault: &RunsFault,
)
    requires { plays_before + length fault.now.done.items < 18446744073709551615 }
    ensures { Writes W.contents text.old text.new (recap_json plays_before fleet.now (broken_facts fault.now.done.items fault.now.last)) }
{
    text.write_str("{\"plays\":");
    write_array_of_broken(text, fleet, plays_before, fault);
    text.write_str("}\n");
}
