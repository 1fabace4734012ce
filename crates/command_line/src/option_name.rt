//! The options that are taken out of the words before clap reads them.
ghost use Rattle.std.specs.Prelude.{◌≡◌, ◌||◌, string_bytes};
ghost use Rattle.std.specs.Str.{bytes_eq};
ghost use Rattle.command_line.specs.OptionNames as spec;

use crate::words::is_word;

/// An option of a command. It may stand anywhere before the word that ends options, and more than once.
#[derive(Clone, Copy, Debug)]
pub(crate) enum OptionName {
    Allow,
    ChangedInputs,
    Color,
    Commands,
    Expect,
    Failing,
    Forecast,
    From,
    Groups,
    Journal,
    Json,
    LockFile,
    Up,
    NoLock,
    Picture,
    Quiet,
    Resume,
    StopFile,
    Strict,
    Verbose,
}

impl OptionName {
    /// How it is written.
    pub(crate) fn text<'a>(self) -> &'a str
        ensures { result.now ≡ spec.text_of self }
    {
        match self {
            OptionName::Allow => "--allow",
            OptionName::ChangedInputs => "--changed-inputs",
            OptionName::Color => "--color",
            OptionName::Commands => "--commands",
            OptionName::Expect => "--expect",
            OptionName::Failing => "--failing",
            OptionName::Forecast => "--forecast",
            OptionName::From => "--from",
            OptionName::Groups => "--groups",
            OptionName::Journal => "--journal",
            OptionName::Json => "--json",
            OptionName::LockFile => "--lock-file",
            OptionName::Up => "--up",
            OptionName::NoLock => "--no-lock",
            OptionName::Picture => "--picture",
            OptionName::Quiet => "--quiet",
            OptionName::Resume => "--resume",
            OptionName::StopFile => "--stop-file",
            OptionName::Strict => "--strict",
            OptionName::Verbose => "--verbose",
        }
    }

    /// How it is written without its dashes.
    pub(crate) fn id<'a>(self) -> &'a str
        ensures { result.now ≡ spec.id_of self }
    {
        self.text().strip_prefix("--").unwrap_or("")
    }

    /// Whether a value belongs to it.
    pub(crate) fn has_value(self) -> bool
        ensures { result ≡ spec.has_value self }
    {
        match self {
            OptionName::Allow
            | OptionName::Color
            | OptionName::Expect
            | OptionName::Failing
            | OptionName::From
            | OptionName::Journal
            | OptionName::LockFile
            | OptionName::Up
            | OptionName::Picture
            | OptionName::Resume
            | OptionName::StopFile => true,
            OptionName::ChangedInputs
            | OptionName::Commands
            | OptionName::Forecast
            | OptionName::Groups
            | OptionName::Json
            | OptionName::NoLock
            | OptionName::Quiet
            | OptionName::Strict
            | OptionName::Verbose => false,
        }
    }

    /// Whether it is this one.
    pub(crate) fn is(self, other: OptionName) -> bool
        ensures { result ≡ spec.is_same self other }
    {
        self.text() == other.text()
    }

    /// Whether the word is its name, or the letter that stands for it.
    pub(crate) fn is_named(self, word: &String) -> bool
        ensures { result ≡ spec.is_named self (string_bytes word.now) }
    {
        is_word(word, self.text()) || self.has_letter(word)
    }

    /// Whether the word is the letter that stands for it.
    fn has_letter(self, word: &String) -> bool
        ensures { result ≡ spec.has_letter self (string_bytes word.now) }
    {
        match self {
            OptionName::Verbose => is_word(word, "-v"),
            _ => false,
        }
    }
}
