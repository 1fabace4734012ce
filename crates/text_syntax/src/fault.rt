//! Why a word was not rendered.

/// In this order: of two that hold the one above is told.
#[derive(Clone, Copy, Debug, PartialEq, Eq)]
pub enum RenderFault<'w> {
    /// The first name in a hole that has no value: of `r.rc` it is `r`.
    Undefined { name: &'w str },
    /// An opening (`{{`, `{%` or `{#`) begins no hole.
    BadBraces,
    /// The rendered word is longer than `MAX_RENDERED` bytes.
    TooLong,
    Memory,
}
