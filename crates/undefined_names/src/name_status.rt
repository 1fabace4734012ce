//! What a condition may ask of a host before anything has run on it.
ghost use Rattle.std.specs.Prelude.{◌≡◌, option_map};
ghost use Rattle.undefined_names.specs.InitialEnv.{InitialEnv};
ghost use Rattle.undefined_names.specs.InitialEnv as outset;
ghost use Rattle.undefined_names.specs.Outlook as outlook;
ghost use Rattle.undefined_names.specs.Lent.{stood};
ghost use Rattle.undefined_names.specs.UndefinedReads as misses;
ghost use Rattle.cond.specs.Trees.{had};

use cond::{Field, Scalar, Value};

/// What a name will stand for when a condition is asked.
#[derive(Clone, Copy, Debug, PartialEq, Eq)]
pub(crate) enum NameStatus<'e> {
    /// A variable of this value, and no result.
    Variable(Scalar<'e>),
    /// A registered result.
    Registered,
    /// Perhaps a registered result; else a variable, where there is one, or nothing.
    Perhaps { is_variable: bool },
    Nothing,
}

impl<'e> NameStatus<'e> {
    /// Whether a condition that looks up the name may find nothing.
    pub(crate) fn is_missed(self) -> bool
        ensures { result ≡ outlook.is_missed (stood self.entry) }
    {
        match self {
            NameStatus::Variable(_) | NameStatus::Registered => false,
            NameStatus::Perhaps { is_variable } => !is_variable,
            NameStatus::Nothing => true,
        }
    }

    /// Whether a condition that looks up a field of the result may find no result.
    pub(crate) fn is_result_missed(self) -> bool
        ensures { result ≡ outlook.is_result_missed (stood self.entry) }
    {
        !matches!(self, NameStatus::Registered)
    }

    /// Whether a hole with the name may have no text: a whole result has none.
    pub(crate) fn has_no_text(self) -> bool
        ensures { result ≡ misses.has_no_text (stood self.entry) }
    {
        !matches!(self, NameStatus::Variable(_))
    }

    /// What the name has, where that is known.
    pub(crate) fn known_value(self) -> Option<Value<'e>>
        ensures { option_map had result ≡ outset.value_of (stood self.entry) }
    {
        match self {
            NameStatus::Variable(scalar) => Some(Value::Plain(scalar)),
            NameStatus::Registered => Some(Value::Registered),
            NameStatus::Perhaps { .. } | NameStatus::Nothing => None,
        }
    }

    /// Whether the name has a value, where that is known.
    pub(crate) fn is_there(self) -> Option<bool>
        ensures { result ≡ outset.is_there (stood self.entry) }
    {
        match self {
            NameStatus::Variable(_) | NameStatus::Registered => Some(true),
            NameStatus::Perhaps { is_variable: true } => Some(true),
            NameStatus::Perhaps { is_variable: false } => None,
            NameStatus::Nothing => Some(false),
        }
    }

    /// Whether the result has the field, where that is known.
    pub(crate) fn is_field_there(self, field: Field) -> Option<bool>
        ensures { result ≡ outset.is_field_there (stood self.entry) field }
    {
        match (self, field) {
            (NameStatus::Registered, Field::Rc) => None,
            (NameStatus::Registered, _) => Some(true),
            (NameStatus::Perhaps { .. }, _) => None,
            (NameStatus::Variable(_) | NameStatus::Nothing, _) => Some(false),
        }
    }
}

/// A host at the outset.
pub(crate) trait StaticEnv {
    ghost outset: { Self → InitialEnv };

    fn standing(&self, name: &str) -> NameStatus<'_>
        ensures { stood result ≡ (outset self.now).standing name.now };

    /// Whether the group of this name holds the host.
    fn in_group(&self, group: &str) -> bool
        ensures { result ≡ (outset self.now).in_group group.now };

    /// The host's own name.
    fn host(&self) -> &str
        ensures { result.now ≡ (outset self.now).host };
}
