//! What a condition may ask of a registered result.
ghost use Rattle.std.specs.Prelude.{◌≡◌};
ghost use Rattle.cond.specs.Grammar.{state_named};

/// What `is` asks of a registered result. One that succeeded is one that isn't failed, a skipped one among them.
#[derive(Clone, Copy, Debug, PartialEq, Eq)]
pub enum State {
    Changed,
    Failed,
    Skipped,
    Succeeded,
}

impl State {
    /// The state that a condition asks for by this word.
    pub(crate) fn named(word: &str) -> Option<State>
        ensures { result ≡ state_named word.now }
    {
        match word {
            "changed" => Some(State::Changed),
            "failed" => Some(State::Failed),
            "skipped" => Some(State::Skipped),
            "succeeded" => Some(State::Succeeded),
            _ => None,
        }
    }
}
