//! The command that goes on with a run.
ghost use Rattle.std.specs.Prelude.{◌≡◌, IfOk, IfSome, false, option_map, string_bytes};
ghost use Rattle.bounded_io.specs.Writing.{Writes};
ghost use Rattle.command_line.specs.Wishes.{wish_as};
ghost use Rattle.rollout.specs.Calls as spec;

use bounded_io::TextWriter;
use command_line::{Forks, Options, Source};
use recap::write_field;
use run_diagnosis::Call;
use std::alloc::{AllocError, Global};
use std::io::Write;
use terminal_text::write_shell_word;

/// The command that goes on with the run that is called so; none if the run has no journal, or if there is no memory for it.
pub(crate) fn call_of(
    alloc: Global,
    inventory: &Source,
    playbook: &Source,
    forks: &Forks,
    wishes: &Options,
) -> Option<Call>
    ensures { IfSome result (spec.IsCall (wish_as wishes.now) forks.now inventory.now playbook.now) }
{
    match kept_in(&wishes.from, &wishes.journal) {
        Some(journal) => call_by(alloc, journal.as_str(), inventory, playbook, forks, wishes),
        None => None,
    }
}

/// The command that goes on with the run of this journal, whose playbook isn't known; none from standard input, or if there is no memory for it.
pub(crate) fn call_on(alloc: Global, inventory: &Source, journal: &Source) -> Option<Call>
    ensures { IfSome result (spec.IsCallOn inventory.now journal.now) }
{
    match journal {
        Source::File(name) => call_behind(alloc, name.as_str(), inventory),
        Source::StandardInput => None,
    }
}

fn call_behind(alloc: Global, journal: &str, inventory: &Source) -> Option<Call>
    ensures front { IfSome result (λ call. call.front.items ≡ spec.front_text journal.now) }
    ensures back { IfSome result (λ call. call.back.items ≡ spec.open_text inventory.now) }
{
    match (front_bytes(alloc, journal), open_bytes(alloc, inventory)) {
        (Ok(front), Ok(back)) => Some(Call { front, back }),
        _ => None,
    }
}

fn open_bytes(alloc: Global, inventory: &Source) -> Result<Vec<u8>, AllocError>
    ensures { IfOk result (λ bytes. bytes.items ≡ spec.open_text inventory.now) }
{
    let mut bytes = Vec::new(alloc);
    let mut text = TextWriter::new(&mut bytes);
    write_open(&mut text, inventory);
    match text.finish() {
        Ok(()) => Ok(bytes),
        Err(_refused) => Err(AllocError),
    }
}

#[tactic(auto, using(bounded_io::proofs::Pieces::pieces_of_text))]
fn write_open<W: Write>(text: &mut TextWriter<'_, W>, inventory: &Source)
    ensures { Writes W.contents text.old text.new (spec.open_text inventory.now) }
{
    write_source(text, inventory);
    text.write_str(" PLAYBOOK");
}

fn kept_in<'w>(old: &'w Option<String>, new: &'w Option<String>) -> Option<&'w String>
    ensures { option_map (λ name. string_bytes name.now) result ≡ spec.kept_in (option_map string_bytes old.now) (option_map string_bytes new.now) }
{
    match old {
        Some(name) => Some(name),
        None => new.as_ref(),
    }
}

fn call_by(
    alloc: Global,
    journal: &str,
    inventory: &Source,
    playbook: &Source,
    forks: &Forks,
    wishes: &Options,
) -> Option<Call>
    ensures front { IfSome result (λ call. call.front.items ≡ spec.front_text journal.now) }
    ensures back { IfSome result (λ call. call.back.items ≡ spec.back_text (wish_as wishes.now) forks.now inventory.now playbook.now) }
{
    let front = front_bytes(alloc, journal);
    let back = back_bytes(alloc, inventory, playbook, forks, wishes);
    match (front, back) {
        (Ok(front), Ok(back)) => Some(Call { front, back }),
        _ => None,
    }
}

fn front_bytes(alloc: Global, journal: &str) -> Result<Vec<u8>, AllocError>
    ensures { IfOk result (λ bytes. bytes.items ≡ spec.front_text journal.now) }
{
    let mut bytes = Vec::new(alloc);
    let mut text = TextWriter::new(&mut bytes);
    write_front(&mut text, journal);
    match text.finish() {
        Ok(()) => Ok(bytes),
        Err(_refused) => Err(AllocError),
    }
}

fn back_bytes(
    alloc: Global,
    inventory: &Source,
    playbook: &Source,
    forks: &Forks,
    wishes: &Options,
) -> Result<Vec<u8>, AllocError>
    ensures { IfOk result (λ bytes. bytes.items ≡ spec.back_text (wish_as wishes.now) forks.now inventory.now playbook.now) }
{
    let mut bytes = Vec::new(alloc);
    let mut text = TextWriter::new(&mut bytes);
    write_back(&mut text, inventory, playbook, forks.number(), wishes);
    match text.finish() {
        Ok(()) => Ok(bytes),
        Err(_refused) => Err(AllocError),
    }
}

#[tactic(auto, using(bounded_io::proofs::Pieces::pieces_of_text))]
fn write_word<W: Write>(text: &mut TextWriter<'_, W>, word: &str)
    ensures { Writes W.contents text.old text.new (spec.word_text word.now) }
{
    text.write_str(" ");
    write_shell_word(text, word.as_bytes());
}

#[tactic(auto, using(bounded_io::proofs::Pieces::pieces_of_text))]
fn write_front<W: Write>(text: &mut TextWriter<'_, W>, journal: &str)
    ensures { Writes W.contents text.old text.new (spec.front_text journal.now) }
{
    text.write_str("rollout run --resume");
    write_word(text, journal);
}

fn write_source<W: Write>(text: &mut TextWriter<'_, W>, source: &Source)
    ensures { Writes W.contents text.old text.new (spec.source_text source.now) }
{
    match source {
        Source::StandardInput => {}
        Source::File(name) => write_word(text, name.as_str()),
    }
}

#[tactic(auto, using(bounded_io::proofs::Pieces::pieces_of_text))]
fn write_lock_file<W: Write>(text: &mut TextWriter<'_, W>, file: &Option<String>)
    ensures { Writes W.contents text.old text.new (spec.lock_text false (option_map string_bytes file.now)) }
{
    match file {
        Some(name) => {
            text.write_str(" --lock-file");
            write_word(text, name.as_str());
        }
        None => {}
    }
}

fn write_lock<W: Write>(text: &mut TextWriter<'_, W>, is_unlocked: bool, file: &Option<String>)
    ensures { Writes W.contents text.old text.new (spec.lock_text is_unlocked (option_map string_bytes file.now)) }
{
    if is_unlocked {
        text.write_str(" --no-lock");
    } else {
        write_lock_file(text, file);
    }
}

fn write_forks<W: Write>(text: &mut TextWriter<'_, W>, forks: usize)
    ensures { Writes W.contents text.old text.new (spec.forks_text forks) }
{
    if forks != 5 {
        write_field(text, " --forks ", forks as u64);
    }
}

#[tactic(auto, using(bounded_io::proofs::Pieces::pieces_of_text))]
fn write_back<W: Write>(
    text: &mut TextWriter<'_, W>,
    inventory: &Source,
    playbook: &Source,
    forks: usize,
    wishes: &Options,
)
    ensures { Writes W.contents text.old text.new (spec.back_text (wish_as wishes.now) forks inventory.now playbook.now) }
{
    write_lock(text, wishes.is_unlocked, &wishes.lock_file);
    write_forks(text, forks);
    write_source(text, inventory);
    write_source(text, playbook);
}
