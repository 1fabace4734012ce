//! rollout: rolling updates over failure domains.
#![tactic(auto)]

mod advice;
mod call;
mod children;
mod commands;
mod detail;
mod dispatch;
mod ending;
mod explanation;
mod fault;
mod fault_line;
mod folder;
mod hint_source;
mod holder;
mod inputs;
mod list;
mod locking;
mod outputs;
mod playbook_rows;
mod program;
mod row;
mod source;
mod status;
mod stdin_notice;
mod stop_file_watch;
mod system;
mod text_rows;
mod words;

use crate::program::run;
use crate::stdin_notice::report_what_is_awaited;
use crate::system::Host;
use bounded_io::Fallible;
use local_runner::{LocalPrograms, ReporterInbox, System, occupy_standard};
use roll_core::History;
use run_progress::{ProgressReporter, ReportProgress};
use std::io;
use std::io::{IsTerminal, Stderr, Stdin, Stdout};
use std::process::ExitCode;

fn main(rt: HostRuntime) -> ExitCode {
    occupy_standard();
    let errors = rt.stderr();
    report_what_is_awaited(&rt, rt.stdin(), errors);
    let notes = ReporterInbox::new(rt.alloc());
    let programs = LocalPrograms::new(System::new(&rt), &notes);
    let mut teller = ProgressReporter::new(&rt, rt.alloc(), &notes, io::writer(&errors));
    let prompts = prompts_of(rt.stdin(), rt.stdout(), errors);
    let (code, _history) = run(
        &Host::new(&rt, rt.stdout(), errors, prompts),
        &rt,
        rt.alloc(),
        &programs,
        &notes,
        &mut teller,
        &mut Fallible(rt.reader()),
        &mut io::writer(&rt),
        &mut io::writer(&errors),
        History::new(&rt),
    );
    teller.run_ends();
    code
}

/// Standard error, where commands are typed at a terminal and their answers are seen on one.
fn prompts_of(input: Stdin, output: Stdout, errors: Stderr) -> Option<Stderr> {
    if input.is_terminal() && output.is_terminal() && errors.is_terminal() {
        Some(errors)
    } else {
        None
    }
}
