//! What `lint` tells of texts that are refused: all their faults.
ghost use Rattle.std.specs.Prelude.{◌≡◌, ◌+◌, ◌++◌, ◌⊎◌, IfErr, IfNone, IfOk, IfSome, OnOk, length, map, string_bytes, take};
ghost use Rattle.std.specs.Option.{option_map};
ghost use Rattle.all_faults.specs.Every.{IsEveryFault};
ghost use Rattle.json_output.specs.declared.form.Form.TheVariants.{Plain};
ghost use Rattle.rollout.specs.Endings.{fault_text, help_text};
ghost use Rattle.rollout.specs.LintFaults.{AreFaultless, IsFound, LosesFaults, LosesFound, PrintsFaults, ShowsFaults, WantsMemory, WritesEach, WritesTold, count_line};
ghost use Rattle.rollout.specs.LintFaults as spec;
ghost use Rattle.rollout.specs.declared.fault.Fault.TheVariants as fault;
ghost use Rattle.bounded_io.specs.Writing.{Writes};

use crate::advice::{Texts, advice_on};
use crate::ending::write_help;
use crate::fault::Fault;
use crate::fault_line::write_fault;
use crate::status::Status;
use all_faults::{EveryFault, list_all_faults};
use bounded_io::TextWriter;
use cond::span::split;
use domains::{FleetFault, PatternFault};
use inventory_read::ReadFault;
use json_output::Form;
use playbook_schema::PlayFault;
use recap::write_field;
use std::alloc::{AllocError, Global};
use std::io::Write;

/// So many faults are told at most.
const MOST_FAULTS: usize = 100;

/// The faults of texts that are known, in the order in which a plan tells the first, and how many there are in all.
#[derive(Drop)]
pub(crate) struct Found {
    pub faults: Vec<Fault>,
    pub count: u64,
}

/// All faults of an inventory, and of a playbook where there is one; nothing where there is none.
pub(crate) fn find_faults(
    alloc: Global,
    inventory: &[u8],
    playbook: Option<&[u8]>,
) -> Result<Option<Found>, AllocError>
    ensures some { IfOk result (λ found. IfSome found (IsFound inventory.now (option_map (λ text. text.now) playbook.entry))) }
    ensures none { IfOk result (λ found. IfNone found (AreFaultless inventory.now (option_map (λ text. text.now) playbook.entry))) }
{
    let all = match list_all_faults(alloc, inventory, playbook, MOST_FAULTS) {
        Ok(all) => all,
        Err(refused) => return Err(refused),
    };
    let more = more_faults(&all);
    let faults = match known_faults(alloc, all) {
        Ok(faults) => faults,
        Err(refused) => return Err(refused),
    };
    let count = (faults.len() as u64).saturating_add(more);
    if count == 0 {
        Ok(None)
    } else {
        Ok(Some(Found { faults, count }))
    }
}

/// How many more there are than those that are known.
fn more_faults(all: &EveryFault) -> u64
    ensures { result ≡ spec.more_faults all.now }
{
    (all.inventory.more as u64)
        .saturating_add(all.fleet.more as u64)
        .saturating_add(all.playbook.more as u64)
        .saturating_add(all.patterns.more as u64)
}

fn known_faults(alloc: Global, all: EveryFault) -> Result<Vec<Fault>, AllocError>
    ensures { IfOk result (λ faults. faults.items ≡ spec.known_faults all) }
{
    let EveryFault {
        inventory,
        fleet,
        playbook,
        patterns,
    } = all;
    let mut faults = read_faults(alloc, inventory.faults)?;
    add(&mut faults, fleet_faults(alloc, fleet.faults)?)?;
    add(&mut faults, playbook_faults(alloc, playbook.faults)?)?;
    add(&mut faults, pattern_faults(alloc, patterns.faults)?)?;
    Ok(faults)
}

fn add(faults: &mut Vec<Fault>, mut others: Vec<Fault>) -> Result<(), AllocError>
    ensures { OnOk result (faults.new.items ≡ faults.old.items ++ others.items) }
{
    faults.append(&mut others)
}

fn read_faults(alloc: Global, told: Vec<ReadFault>) -> Result<Vec<Fault>, AllocError>
    ensures { IfOk result (λ faults. faults.items ≡ map (λ found. fault.Read found) told.items) }
{
    told.into_iter()
        .map(|found| Fault::Read(found))
        .collect(alloc)
}

fn fleet_faults(alloc: Global, told: Vec<FleetFault>) -> Result<Vec<Fault>, AllocError>
    ensures { IfOk result (λ faults. faults.items ≡ map (λ found. fault.Fleet found) told.items) }
{
    told.into_iter()
        .map(|found| Fault::Fleet(found))
        .collect(alloc)
}

fn playbook_faults(alloc: Global, told: Vec<PlayFault>) -> Result<Vec<Fault>, AllocError>
    ensures { IfOk result (λ faults. faults.items ≡ map (λ found. fault.Playbook found) told.items) }
{
    told.into_iter()
        .map(|found| Fault::Playbook(found))
        .collect(alloc)
}

fn pattern_faults(alloc: Global, told: Vec<PatternFault>) -> Result<Vec<Fault>, AllocError>
    ensures { IfOk result (λ faults. faults.items ≡ map (λ found. fault.Pattern found) told.items) }
{
    told.into_iter()
        .map(|found| Fault::Pattern(found))
        .collect(alloc)
}

/// Writes the faults, up to a hundred, each with a hint, and how many there are.
pub(crate) fn report_faults<W: Write>(
    alloc: Global,
    found: &Found,
    inventory: &[u8],
    playbook: Option<&[u8]>,
    out: &mut W,
) -> Result<Status, Fault>
    requires { IsFound inventory.now (option_map (λ text. text.now) playbook) found.now }
    ensures ok { IfOk result (PrintsFaults inventory.now (option_map (λ text. text.now) playbook.entry) (W.contents out.old) (W.contents out.new)) }
    ensures err { IfErr result (λ fault. LosesFaults inventory.now (option_map (λ text. text.now) playbook.entry) (W.contents out.old) (W.contents out.new) fault
        ⊎ WantsMemory (W.contents out.old) (W.contents out.new) fault) }
{
    let nothing: &[u8] = &[];
    match Texts::read(
        alloc,
        inventory,
        playbook.unwrap_or(nothing),
        found.faults.as_slice(),
    ) {
        Ok(texts) => send_faults(alloc, found, &texts, out),
        Err(_refused) => Err(Fault::Memory),
    }
}

#[tactic(auto, using(crate::proofs::FaultLemmas::shown_so, crate::proofs::FaultLemmas::lost_so))]
fn send_faults<W: Write>(
    alloc: Global,
    found: &Found,
    texts: &Texts<'_>,
    out: &mut W,
) -> Result<Status, Fault>
    ensures ok { IfOk result (λ status. (status ≡ Status.Refused) × ShowsFaults found.now (W.contents out.old) (W.contents out.new)) }
    ensures err { IfErr result (LosesFound found.now (W.contents out.old) (W.contents out.new)) }
{
    let mut text = TextWriter::new(out);
    write_each(alloc, &mut text, first_of(found.faults.as_slice()), texts);
    write_count(&mut text, found.count);
    match text.finish() {
        Ok(()) => Ok(Status::Refused),
        Err(fault) => Err(Fault::Write(fault)),
    }
}

/// Those that are told.
fn first_of(faults: &[Fault]) -> &[Fault]
    ensures { result.now ≡ take spec.most_faults faults.now }
{
    split(faults, MOST_FAULTS).0
}

#[tactic(auto, using(bounded_io::proofs::Pieces::pieces_of_text))]
fn write_count<W: Write>(text: &mut TextWriter<'_, W>, count: u64)
    ensures { Writes W.contents text.old text.new (count_line count) }
{
    write_field(text, "faults=", count);
    text.write_str("\n");
}

fn write_each<W: Write>(
    alloc: Global,
    text: &mut TextWriter<'_, W>,
    faults: &[Fault],
    texts: &Texts<'_>,
)
    ensures { WritesEach W.contents text.old text.new faults.now }
{
    match faults {
        [] => {}
        [fault, others @ ..] => {
            write_told(alloc, text, fault, texts);
            write_each(alloc, text, others, texts);
        }
    }
}

/// Writes the line of the fault, and what to do.
#[tactic(auto, using(crate::proofs::FaultLemmas::told_so))]
fn write_told<W: Write>(
    alloc: Global,
    text: &mut TextWriter<'_, W>,
    fault: &Fault,
    texts: &Texts<'_>,
)
    ensures { WritesTold W.contents text.old text.new fault.now }
{
    let help = advice_on(alloc, fault, texts);
    write_line(text, fault, &help);
}

#[tactic(auto, using(bounded_io::proofs::Pieces::pieces_of_text))]
fn write_line<W: Write>(text: &mut TextWriter<'_, W>, fault: &Fault, help: &Option<String>)
    ensures { Writes W.contents text.old text.new (fault_text Plain fault.now ++ help_text Plain (option_map string_bytes help.now)) }
{
    write_fault(text, Form::Plain, fault);
    write_help(text, Form::Plain, help);
}
