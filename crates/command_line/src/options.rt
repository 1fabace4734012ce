//! What the words of a line ask for beside it, by their options.
ghost use Rattle.std.specs.Prelude.{◌≡◌, [], IfOk, Some, None, if◌then◌else◌, map, string_bytes};
ghost use Rattle.std.specs.Option.{option_map, option_or};
ghost use Rattle.command_line.specs.OptionReads.{given_as};
ghost use Rattle.command_line.specs.Wishes as spec;
ghost use Rattle.command_line.specs.declared.option_name.OptionName.TheVariants as option;

use crate::option_match::{has, joined, last};
use crate::option_name::OptionName;
use crate::option_reading::OptionMatch;
use std::alloc::{AllocError, Global};

/// What is asked for beside a line. What a command isn't asked for it is as if it had not been said.
#[derive(Debug, Drop)]
pub struct Options {
    /// Whether a run is told of while it goes on, and of a plan who is left out of it.
    pub is_verbose: bool,
    /// Whether a run tells nothing unasked, also at a terminal. Where it is verbose too, that goes before.
    pub is_quiet: bool,
    /// Whether a rehearsal in which a command is refused ends as refused, and a run begins only where no name may be missing.
    pub is_strict: bool,
    /// Whether a run holds no lock.
    pub is_unlocked: bool,
    /// The file of which a run holds the lock, in place of its inventory.
    pub lock_file: Option<String>,
    /// The file that ends a run before its next batch, once it is there.
    pub stop_file: Option<String>,
    /// The new file in which a run is kept.
    pub journal: Option<String>,
    /// The journal of the run that is to go on, or from which a plan, a rehearsal or the table of limits begins.
    pub from: Option<String>,
    /// The names of the hosts that are up by now, a comma behind each.
    pub mended: String,
    /// Whether the inputs may be others than those with which the run of that journal began.
    pub takes_others: bool,
    /// If a forecast is requested, the names of the hosts that fail in it, a comma behind each.
    pub forecast: Option<String>,
    /// Whether a plan, or a forecast, shows how full its groups are.
    pub is_grouped: bool,
    /// When the tables of groups are colored: `auto`, `always` or `never`; `auto` by default.
    pub color: Option<String>,
    /// The file into which the forecast is drawn.
    pub picture: Option<String>,
    /// Whether the commands of the steps are printed instead of a plan.
    pub tells_commands: bool,
    /// Whether what goes out is JSON.
    pub is_json: bool,
    /// Where numbers are expected of the table of limits or of a plan, their lists, a comma behind each.
    pub expected: Option<String>,
    /// The kinds of notes that are not told, a comma behind each list of them.
    pub allowed: String,
}

impl Options {
    /// Where nothing is asked for.
    pub(crate) fn none(alloc: Global) -> Options
        ensures { spec.wish_as result ≡ spec.wish_of [] }
    {
        Options {
            is_verbose: false,
            is_quiet: false,
            is_strict: false,
            is_unlocked: false,
            lock_file: None,
            stop_file: None,
            journal: None,
            from: None,
            mended: String::new(alloc),
            takes_others: false,
            forecast: None,
            is_grouped: false,
            color: None,
            picture: None,
            tells_commands: false,
            is_json: false,
            expected: None,
            allowed: String::new(alloc),
        }
    }
}

/// What these options ask for.
pub(crate) fn wishes_of(alloc: Global, given: &[OptionMatch]) -> Result<Options, AllocError>
    ensures { IfOk result (λ wishes. spec.wish_as wishes ≡ spec.wish_of (map given_as given.now)) }
{
    Ok(Options {
        is_verbose: has(given, OptionName::Verbose),
        is_quiet: has(given, OptionName::Quiet),
        is_strict: has(given, OptionName::Strict),
        is_unlocked: has(given, OptionName::NoLock),
        lock_file: last(alloc, given, OptionName::LockFile)?,
        stop_file: last(alloc, given, OptionName::StopFile)?,
        journal: last(alloc, given, OptionName::Journal)?,
        from: starts_from(alloc, given)?,
        mended: joined(alloc, given, OptionName::Up)?,
        takes_others: has(given, OptionName::ChangedInputs),
        forecast: forecast_of(alloc, given)?,
        is_grouped: has(given, OptionName::Groups),
        color: last(alloc, given, OptionName::Color)?,
        picture: last(alloc, given, OptionName::Picture)?,
        tells_commands: has(given, OptionName::Commands),
        is_json: has(given, OptionName::Json),
        expected: joined_if_given(alloc, given, OptionName::Expect)?,
        allowed: joined(alloc, given, OptionName::Allow)?,
    })
}

/// The values of the option in one text, a comma behind each, if it was given.
fn joined_if_given(
    alloc: Global,
    given: &[OptionMatch],
    option: OptionName,
) -> Result<Option<String>, AllocError>
    ensures { IfOk result (λ text. option_map string_bytes text
        ≡ (if spec.has option (map given_as given.now) then Some (spec.joined_values option (map given_as given.now)) else None)) }
{
    if has(given, option) {
        Ok(Some(joined(alloc, given, option)?))
    } else {
        Ok(None)
    }
}

/// The journal from which what is asked for begins.
fn starts_from(alloc: Global, given: &[OptionMatch]) -> Result<Option<String>, AllocError>
    ensures { IfOk result (λ journal. option_map string_bytes journal
        ≡ option_or (spec.last_value option.Resume (map given_as given.now)) (spec.last_value option.From (map given_as given.now))) }
{
    match last(alloc, given, OptionName::Resume)? {
        Some(journal) => Ok(Some(journal)),
        None => last(alloc, given, OptionName::From),
    }
}

/// The names of the hosts that fail in the forecast, if one is requested.
fn forecast_of(alloc: Global, given: &[OptionMatch]) -> Result<Option<String>, AllocError>
    ensures { IfOk result (λ forecast. option_map string_bytes forecast
        ≡ (if spec.has option.Forecast (map given_as given.now) then Some (spec.joined_values option.Failing (map given_as given.now)) else None)) }
{
    if has(given, OptionName::Forecast) {
        Ok(Some(joined(alloc, given, OptionName::Failing)?))
    } else {
        Ok(None)
    }
}
