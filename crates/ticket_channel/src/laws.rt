//! What follows from the rule of a line, over all passes, at each moment.
ghost use Rattle.ticket_channel.specs.Laws.{NumbersAgree, OnceOrLeft, TakenWerePut};

/// A ticket that was put once was taken once or is left.
#[tactic(auto, using(crate::proofs::RuleLaws::once_or_left))]
pub fn each_ticket_once<T>()
    ensures { OnceOrLeft T }
{}

/// Nothing was taken that was not put.
#[tactic(auto, using(crate::proofs::RuleLaws::taken_were_put))]
pub fn none_is_made_up<T>()
    ensures { TakenWerePut T }
{}

/// The numbers that the takers tell, and of what is left, add up to that of the tickets put.
#[tactic(auto, using(crate::proofs::RuleLaws::numbers_agree))]
pub fn numbers_agree<T>()
    ensures { NumbersAgree T }
{}
