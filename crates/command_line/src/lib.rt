//! The command line of the program: from its words to a command.
#![tactic(auto)]

mod arguments;
pub mod command;
mod fault;
mod forks;
mod found;
mod making;
mod message;
mod option_conflict;
mod option_help;
mod option_match;
mod option_name;
mod option_reading;
mod option_rules;
mod option_words;
mod options;
mod parsed_command;
mod reading;
mod request;
mod run_words;
mod spelling;
mod syntax;
mod words;

pub use command::Source;
pub use fault::LineFault;
pub use forks::Forks;
pub use message::Message;
pub use option_conflict::OptionConflict;
pub use options::Options;
pub use reading::line;
pub use request::{Request, request_of};
