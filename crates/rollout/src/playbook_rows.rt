//! The rows of faults of playbooks, and of names without a value.
ghost use Rattle.std.specs.Prelude.{string_bytes};
ghost use Rattle.bounded_io.specs.Writing.{Writes};
ghost use Rattle.rollout.specs.FaultLines.{row_text};
ghost use Rattle.rollout.specs.FaultRows as rows;

use crate::detail::Detail::{Number, Text};
use crate::row::{name_row, no_row, path_row, row};
use bounded_io::TextWriter;
use cond::CondFault;
use json_output::Form;
use playbook_schema::{ConditionKey, PlayFault};
use std::io::Write;
use undefined_names::NoValue;

#[tactic(auto, using(bounded_io::proofs::Pieces::pieces_of_text))]
pub(crate) fn write_playbook_row<W: Write>(
    text: &mut TextWriter<'_, W>,
    form: Form,
    fault: &PlayFault,
)
    ensures { Writes W.contents text.old text.new (row_text form (rows.playbook_row fault.now)) }
{
    match fault {
        PlayFault::NotJson => row(text, form, "NotJson", &[]),
        PlayFault::BadShape { at } => path_row(text, form, "BadShape", at),
        PlayFault::UnknownKey { at } => path_row(text, form, "UnknownKey", at),
        PlayFault::NoSuchHandler { name } => name_row(text, form, "NoSuchHandler", name),
        PlayFault::TwiceHandler { name } => name_row(text, form, "TwiceHandler", name),
        PlayFault::BadSerial { at } => path_row(text, form, "BadSerial", at),
        PlayFault::BadPercent { at } => path_row(text, form, "BadPercent", at),
        PlayFault::ManyPlays => row(text, form, "ManyPlays", &[]),
        PlayFault::TooManySteps => row(text, form, "TooManySteps", &[]),
        PlayFault::BadCondition {
            play,
            step,
            key,
            fault,
        } => write_cond_row(text, form, *play, *step, *key, fault),
        PlayFault::BadBraces { play, step } => write_braces_row(text, form, *play, *step),
        PlayFault::Memory => no_row(text, form),
    }
}

#[tactic(auto, using(bounded_io::proofs::Pieces::pieces_of_text))]
fn write_cond_row<W: Write>(
    text: &mut TextWriter<'_, W>,
    form: Form,
    play: Option<usize>,
    step: usize,
    key: ConditionKey,
    fault: &CondFault,
)
    ensures { Writes W.contents text.old text.new (row_text form (rows.cond_row play step key fault.now)) }
{
    match fault {
        CondFault::BadToken { at } => condition_row(text, form, "BadToken", play, step, key, *at),
        CondFault::Unexpected { at } => condition_row(
            text,
            form,
            "Unexpected",
            play,
            step,
            key,
            *at,
        ),
        CondFault::TooDeep { at } => condition_row(text, form, "TooDeep", play, step, key, *at),
        CondFault::TooLong { at } => condition_row(text, form, "TooLong", play, step, key, *at),
        CondFault::Memory => no_row(text, form),
    }
}

/// A row of a condition under a key of a step; of several plays it tells which.
#[tactic(auto, using(bounded_io::proofs::Pieces::pieces_of_text))]
fn condition_row<W: Write>(
    text: &mut TextWriter<'_, W>,
    form: Form,
    name: &str,
    play: Option<usize>,
    step: usize,
    key: ConditionKey,
    at: usize,
)
    ensures { Writes W.contents text.old text.new (row_text form (rows.condition_row name.now play step key at)) }
{
    let step = Number("step", step as u64);
    let key = Text("key", key.name());
    let at = Number("at", at as u64);
    match play {
        Some(play) => row(
            text,
            form,
            name,
            &[Number("play", play as u64), step, key, at],
        ),
        None => row(text, form, name, &[step, key, at]),
    }
}

#[tactic(auto, using(bounded_io::proofs::Pieces::pieces_of_text))]
fn write_braces_row<W: Write>(
    text: &mut TextWriter<'_, W>,
    form: Form,
    play: Option<usize>,
    step: usize,
)
    ensures { Writes W.contents text.old text.new (row_text form (rows.braces_row play step)) }
{
    let step = Number("step", step as u64);
    match play {
        Some(play) => row(
            text,
            form,
            "BadBraces",
            &[Number("play", play as u64), step],
        ),
        None => row(text, form, "BadBraces", &[step]),
    }
}

/// A row of a name that has no value on a host; of several plays it tells which.
#[tactic(auto, using(bounded_io::proofs::Pieces::pieces_of_text))]
pub(crate) fn write_missing_row<W: Write>(
    text: &mut TextWriter<'_, W>,
    form: Form,
    missing: &NoValue,
)
    ensures { Writes W.contents text.old text.new (row_text form (rows.missing_row missing.now.play missing.now.step (string_bytes missing.now.host) (string_bytes missing.now.name))) }
{
    let step = Number("step", missing.step as u64);
    let host = Text("host", missing.host.as_str());
    let name = Text("name", missing.name.as_str());
    match missing.play {
        Some(play) => row(
            text,
            form,
            "NoValue",
            &[Number("play", play as u64), step, host, name],
        ),
        None => row(text, form, "NoValue", &[step, host, name]),
    }
}
