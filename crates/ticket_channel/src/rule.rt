//! The rule of a line, and its steps.
ghost use Rattle.std.specs.Prelude.{◌≡◌, ◌-◌, ◌+◌, ◌++◌, [], ◌∷◌, ⊤};
ghost use Rattle.ticket_channel.specs.Hands.{AreAmong, EachOnce, SameTickets, half, hand};

use crate::pass_view::PassView;
use crossbeam_channel::protocol::{Join, Lesson, Outcome, Protocol, Split};

/// Over all passes, each ticket that was put was taken once or is left.
pub struct TakenOnce;

impl<T> Protocol<T, PassView<T>> for TakenOnce {
    ghost holds = { EachOnce };

    ghost first = { hand (half + half) [] [] };
}

/// A ticket is put.
pub struct Put;

impl<T> Outcome<T, PassView<T>> for Put {
    ghost then = { λ before ticket after. after ≡ hand before.parts (before.put ++ ticket ∷ []) before.taken };
}

impl<T> Lesson<T, PassView<T>> for Put {
    ghost fact = { λ hand left. ⊤ };
}

/// A ticket is taken by a taker.
pub struct Take;

impl<T> Outcome<T, PassView<T>> for Take {
    ghost then = { λ before ticket after. after ≡ hand before.parts before.put (before.taken ++ ticket ∷ []) };
}

impl<T> Lesson<T, PassView<T>> for Take {
    ghost fact = { λ hand left. ⊤ };
}

/// A ticket is taken by the end that puts.
pub struct TakeBack;

impl<T> Outcome<T, PassView<T>> for TakeBack {
    ghost then = { λ before ticket after. (after ≡ hand before.parts before.put (before.taken ++ ticket ∷ [])) × AreAmong after.taken after.put };
}

impl<T> Lesson<T, PassView<T>> for TakeBack {
    ghost fact = { λ hand left. hand.parts ≡ half + half → SameTickets hand.put (hand.taken ++ left) };
}

/// A pass for one taker more, with one part.
pub struct Admit;

impl<T> Split<PassView<T>> for Admit {
    ghost left = { λ before. hand (before.parts - 1) before.put before.taken };

    ghost right = { λ before. hand 1 [] [] };
}

/// What a taker's pass knows comes back, with its parts.
pub struct Gather;

impl<T> Join<PassView<T>> for Gather {
    ghost both = { λ one other. hand (one.parts + other.parts) one.put (one.taken ++ other.taken) };

    ghost spent = { hand 0 [] [] };
}
