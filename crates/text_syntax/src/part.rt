//! What a word falls into.
use crate::field::Field;

/// What a hole stands for: a name's value, a field of the result that is registered under a name, or the host's own
/// name.
#[derive(Clone, Copy, Debug, PartialEq, Eq)]
pub enum Ref<'w> {
    Whole(&'w str),
    Field(&'w str, Field),
    Hostname,
}

/// Plain text, a hole, or an opening (`{{`, `{%` or `{#`) that begins no hole.
#[derive(Clone, Copy, Debug, PartialEq, Eq)]
pub enum Part<'w> {
    Plain(&'w str),
    Hole(Ref<'w>),
    Braces,
}
