//! Which options a command has, and which of them go together.
ghost use Rattle.std.specs.Prelude.{◌≡◌, ◌||◌, map, not, string_bytes};
ghost use Rattle.std.specs.List.{list_all};
ghost use Rattle.command_line.specs.OptionReads.{given_as};
ghost use Rattle.command_line.specs.OptionsOf as options;
ghost use Rattle.command_line.specs.Wishes as spec;

use crate::option_conflict::OptionConflict;
use crate::option_match::has;
use crate::option_name::OptionName;
use crate::option_reading::OptionMatch;
use crate::words::is_word;

pub(crate) const OF_RUN: &[OptionName] = &[
    OptionName::Verbose,
    OptionName::Quiet,
    OptionName::StopFile,
    OptionName::Journal,
    OptionName::Resume,
    OptionName::Up,
    OptionName::ChangedInputs,
    OptionName::LockFile,
    OptionName::NoLock,
    OptionName::Strict,
    OptionName::Json,
];

pub(crate) const OF_PLAN: &[OptionName] = &[
    OptionName::Forecast,
    OptionName::Failing,
    OptionName::Groups,
    OptionName::Color,
    OptionName::Picture,
    OptionName::Commands,
    OptionName::Expect,
    OptionName::From,
    OptionName::Up,
    OptionName::ChangedInputs,
    OptionName::Json,
    OptionName::Verbose,
];

pub(crate) const OF_REHEARSAL: &[OptionName] = &[
    OptionName::Strict,
    OptionName::From,
    OptionName::Up,
    OptionName::ChangedInputs,
    OptionName::Json,
    OptionName::Verbose,
];

pub(crate) const OF_LIMITS: &[OptionName] = &[
    OptionName::Expect,
    OptionName::From,
    OptionName::Up,
    OptionName::ChangedInputs,
    OptionName::Json,
    OptionName::Verbose,
];

pub(crate) const OF_STATE: &[OptionName] = &[OptionName::ChangedInputs];

pub(crate) const OF_LINT: &[OptionName] = &[OptionName::Allow];

/// The options that a command has beside those that clap reads.
pub(crate) fn options_of(command: &String) -> &'static [OptionName]
    ensures { result.now ≡ options.options_of (string_bytes command.now) }
{
    if is_word(command, "run") {
        OF_RUN
    } else if is_word(command, "plan") {
        OF_PLAN
    } else if is_word(command, "rehearse") {
        OF_REHEARSAL
    } else if is_word(command, "limits") {
        OF_LIMITS
    } else if is_word(command, "state") {
        OF_STATE
    } else if is_word(command, "lint") {
        OF_LINT
    } else {
        &[]
    }
}

/// Why these options of the command don't go together, if they don't.
pub(crate) fn clash_of(command: &String, given: &[OptionMatch]) -> Option<OptionConflict>
    ensures { result ≡ spec.clash_of (string_bytes command.now) (map given_as given.now) }
{
    match clash_of_beginning(command, given) {
        None => clash_of_form(command, given),
        clash => clash,
    }
}

/// By how the play begins.
fn clash_of_beginning(command: &String, given: &[OptionMatch]) -> Option<OptionConflict>
    ensures { result ≡ spec.clash_of_beginning (string_bytes command.now) (map given_as given.now) }
{
    let from = starts_from(given);
    if !goes_with(
        has(given, OptionName::Failing),
        has(given, OptionName::Forecast),
    ) {
        Some(OptionConflict::FailingAlone)
    } else if !goes_with(
        has(given, OptionName::Journal),
        !has(given, OptionName::Resume),
    ) {
        Some(OptionConflict::JournalOfResume)
    } else if !goes_with(
        has(given, OptionName::ChangedInputs),
        from || is_word(command, "state"),
    ) {
        Some(OptionConflict::ChangedInputsAlone)
    } else if !goes_with(has(given, OptionName::Up), from || is_word(command, "run")) {
        Some(OptionConflict::UpAlone)
    } else if !goes_with(has(given, OptionName::From), !tells_groups(given)) {
        Some(OptionConflict::GroupsFrom)
    } else {
        None
    }
}

/// By what goes out.
fn clash_of_form(command: &String, given: &[OptionMatch]) -> Option<OptionConflict>
    ensures { result ≡ spec.clash_of_form (string_bytes command.now) (map given_as given.now) }
{
    if !goes_with(has(given, OptionName::Expect), !tells_beyond(given)) {
        Some(OptionConflict::ExpectBeyond)
    } else if !goes_with(has(given, OptionName::Commands), stand_alone(given)) {
        Some(OptionConflict::CommandsBeside)
    } else if !goes_with(has(given, OptionName::Json), has_json(given)) {
        Some(OptionConflict::NoJson)
    } else if !goes_with(starts_strictly(command, given), !starts_with_others(given)) {
        Some(OptionConflict::StrictOfOthers)
    } else if !are_colours(given) {
        Some(OptionConflict::NoColor)
    } else {
        None
    }
}

/// Whether each value of the option for colours is one that it has.
fn are_colours(given: &[OptionMatch]) -> bool
    ensures { result ≡ spec.are_colours (map given_as given.now) }
{
    all_say_when(given)
}

fn all_say_when(given: &[OptionMatch]) -> bool
    ensures { result ≡ list_all (λ one. spec.says_when (given_as one)) given.now }
{
    given.iter().all(|one| says_when(one))
}

fn says_when(one: &OptionMatch) -> bool
    ensures { result ≡ spec.says_when (given_as one.now) }
{
    !one.option.is(OptionName::Color) || is_when(&one.value)
}

fn is_when(word: &String) -> bool
    ensures { result ≡ spec.is_when (string_bytes word.now) }
{
    is_word(word, "auto") || is_word(word, "always") || is_word(word, "never")
}

/// Whether a journal is named from which what is asked for begins.
fn starts_from(given: &[OptionMatch]) -> bool
    ensures { result ≡ spec.starts_from (map given_as given.now) }
{
    has(given, OptionName::Resume) || has(given, OptionName::From)
}

/// Whether a table of groups or a picture is asked for.
fn tells_groups(given: &[OptionMatch]) -> bool
    ensures { result ≡ spec.tells_groups (map given_as given.now) }
{
    has(given, OptionName::Groups) || has(given, OptionName::Picture)
}

/// Whether more is asked of a plan, or of the table of limits, than how things stand at the start.
fn tells_beyond(given: &[OptionMatch]) -> bool
    ensures { result ≡ spec.tells_beyond (map given_as given.now) }
{
    has(given, OptionName::Forecast) || tells_groups(given) || has(given, OptionName::From)
}

/// Whether nothing else is asked of a plan than its commands. When tables are colored may be given with any plan.
fn stand_alone(given: &[OptionMatch]) -> bool
    ensures { result ≡ spec.stand_alone (map given_as given.now) }
{
    !tells_beyond(given) && !has(given, OptionName::Expect)
}

/// Whether what is asked for has a form in JSON.
fn has_json(given: &[OptionMatch]) -> bool
    ensures { result ≡ spec.has_json (map given_as given.now) }
{
    !tells_groups(given)
        && !has(given, OptionName::From)
        && !has(given, OptionName::Expect)
        && !has(given, OptionName::Commands)
}

/// Whether a run is asked to begin only where no name may be missing.
fn starts_strictly(command: &String, given: &[OptionMatch]) -> bool
    ensures { result ≡ spec.starts_strictly (string_bytes command.now) (map given_as given.now) }
{
    is_word(command, "run") && has(given, OptionName::Strict)
}

/// Whether a run begins with other hosts than the inventory has as up.
fn starts_with_others(given: &[OptionMatch]) -> bool
    ensures { result ≡ spec.starts_with_others (map given_as given.now) }
{
    has(given, OptionName::Resume) || has(given, OptionName::Up)
}

/// Whether an option that is given or not goes with what holds or not.
fn goes_with(is_given: bool, holds: bool) -> bool
    ensures { result ≡ (not is_given || holds) }
{
    !is_given || holds
}
