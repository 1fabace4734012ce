//! A play as data, and the results that its steps register.
#![tactic(auto)]

mod beginning;
mod on_blocked;
mod play;
mod registered;
mod registers;
mod results;
mod size;
mod step;
mod words;
mod worked;

pub use on_blocked::OnBlocked;
pub use play::{Play, SIZES_BOUND, STEPS_BOUND};
pub use registered::Registered;
pub use registers::Registers;
pub use results::Results;
pub use size::Size;
pub use step::Step;
pub use words::Words;
