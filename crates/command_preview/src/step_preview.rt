//! What is foretold of a step on a host.
ghost use Rattle.std.specs.Prelude.{◌≡◌, IfOk, All, IsFalse};
ghost use Rattle.cond.specs.Trees.{told};
ghost use Rattle.text_syntax.specs.Words.{has_braces};
ghost use Rattle.play_model.specs.Plays.{HasPlainWords};
ghost use Rattle.host_track.specs.Hosts.{known_of};
ghost use Rattle.host_track.specs.Asking.{asked_if, words_asked};
ghost use Rattle.command_preview.specs.Previews as spec;
ghost use Rattle.command_preview.specs.Inside.{asked_as, foreseen_by, foretold_as, is_unsure_to};
ghost use Rattle.command_preview.specs.Lines.{is_failing};

use crate::asking::Asking;
use crate::foreseen::Foreseen;
use crate::wording::{Wording, worded};
use cond::{Undefined, eval};
use play_model::{Step, Words};
use std::alloc::{AllocError, Global};

/// What a step asks of a host once it is due there, and whether it is sure to be due and to ask for it.
#[derive(Debug, Drop)]
pub(crate) struct StepPreview<'s> {
    pub(crate) is_sure: bool,
    pub(crate) asking: Asking<'s>,
}

impl StepPreview<'_> {
    /// Whether a word is too long, or a name is sure to have no value.
    pub(crate) fn is_failing(&self) -> bool
        ensures { result ≡ is_failing self.now.is_sure (asked_as self.now.asking) }
    {
        match &self.asking {
            Asking::Job { .. } | Asking::Skipped => false,
            Asking::Undefined { .. } => self.is_sure,
            Asking::TooLong => true,
        }
    }
}

/// What is foretold of the step on the host. It fails for want of memory alone.
pub(crate) fn foretell<'s>(
    alloc: Global,
    step: &'s Step,
    is_task: bool,
    foreseen: &Foreseen<'_>,
) -> Result<StepPreview<'s>, AllocError>
    requires { HasPlainWords step.now }
    ensures { IfOk result (λ told. foretold_as told ≡ spec.foretold (is_unsure_to foreseen.now) is_task (known_of foreseen.now.vars.now) step.now) }
{
    let is_decided = is_decided(step, foreseen);
    Ok(StepPreview {
        is_sure: is_task && is_decided,
        asking: ask(alloc, step, is_decided, foreseen)?,
    })
}

fn is_decided(step: &Step, foreseen: &Foreseen<'_>) -> bool
    ensures { result ≡ spec.is_decided (is_unsure_to foreseen.now) step.now.when }
{
    match &step.when {
        Some(condition) => condition.first_mentioned(foreseen).is_none(),
        None => true,
    }
}

fn ask<'s>(
    alloc: Global,
    step: &'s Step,
    is_decided: bool,
    foreseen: &Foreseen<'_>,
) -> Result<Asking<'s>, AllocError>
    requires plain { HasPlainWords step.now }
    requires decided { is_decided ≡ spec.is_decided (is_unsure_to foreseen.now) step.now.when }
    ensures { IfOk result (λ asking. asked_as asking
        ≡ asked_if (spec.when_foreseen (is_unsure_to foreseen.now) (known_of foreseen.now.vars.now) step.now) (words_asked (foreseen_by foreseen.now) step.now.words)) }
{
    match when_foreseen(step, is_decided, foreseen) {
        Ok(true) => words_for(alloc, &step.words, foreseen),
        Ok(false) => Ok(Asking::Skipped),
        Err(Undefined { name }) => Ok(Asking::Undefined { name }),
    }
}

fn when_foreseen<'s>(
    step: &'s Step,
    is_decided: bool,
    foreseen: &Foreseen<'_>,
) -> Result<bool, Undefined<'s>>
    requires { is_decided ≡ spec.is_decided (is_unsure_to foreseen.now) step.now.when }
    ensures { told result ≡ spec.when_foreseen (is_unsure_to foreseen.now) (known_of foreseen.now.vars.now) step.now }
{
    match &step.when {
        Some(condition) if is_decided => eval(condition, foreseen.vars),
        _ => Ok(true),
    }
}

fn words_for<'s>(
    alloc: Global,
    words: &'s Words,
    foreseen: &Foreseen<'_>,
) -> Result<Asking<'s>, AllocError>
    requires { All (λ word. IsFalse (has_braces word)) words.now }
    ensures { IfOk result (λ asking. asked_as asking ≡ words_asked (foreseen_by foreseen.now) words.now) }
{
    let mut texts = Vec::with_capacity(alloc, words.len())?;
    for place in 0..words.len() {
        match worded(alloc, words.at(place), foreseen)? {
            Wording::Text(text) => texts.push(text)?,
            Wording::Undefined(name) => return Ok(Asking::Undefined { name }),
            Wording::TooLong => return Ok(Asking::TooLong),
        }
    }
    Ok(Asking::Job { words: texts })
}
