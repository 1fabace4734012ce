//! The locks of a run: two runs that know nothing of each other would together take more hosts down than a group may lose.
ghost use Rattle.std.specs.Prelude.{◌≡◌, IfErr, IfOk, None, is_some, true};
ghost use Rattle.rollout.specs.Locks.{IfFile, IsGiven, IsRead, IsReadFrom};
ghost use Rattle.rollout.specs.Rolls.{IsRefusedBy, IsUnlockable};

use crate::fault::Fault;
use crate::inputs::Given;
use crate::outputs::is_of;
use crate::source::is_memory;
use crate::system::System;
use bounded_io::{Input, InputFault, read_input};
use command_line::{Options, Source};
use roll_core::Observer;
use std::alloc::{AllocError, Global};

const REPLACED: &[u8] =
    b"note: the locked file was replaced while this run went on: another run of it was not kept out from then on\n";

/// The file that a run locks, so that no second run begins meanwhile.
#[derive(Clone, Copy)]
pub enum Locking<'w> {
    Inventory,
    /// Another file, made if it is missing: for workspaces that each have a copy of the inventory.
    File(&'w str),
    Nothing,
}

impl<'w> Locking<'w> {
    pub(crate) fn of(wishes: &'w Options) -> Locking<'w> {
        if wishes.is_unlocked {
            return Locking::Nothing;
        }
        match &wishes.lock_file {
            Some(name) => Locking::File(name.as_str()),
            None => Locking::Inventory,
        }
    }
}

/// The lock that a run holds, if it holds one, and what the inventory gave if that is the file: it is read by the descriptor that is locked, so no
/// other file comes between.
#[derive(Drop)]
pub(crate) struct Held<L> {
    pub(crate) lock: Option<L>,
    pub(crate) given: Given,
}

/// Takes the lock. `watch` is told if the inventory has none: a pipe hasn't, and no file of some file systems.
pub(crate) fn hold_lock<S: System, T: Observer>(
    system: &S,
    alloc: Global,
    watch: &mut T,
    inventory: &Source,
    locking: Locking<'_>,
) -> Result<Held<S::Lock>, Fault>
    ensures ok { IfOk result (λ held. IsGiven (S.known system.now).files inventory.now held.given) }
    ensures locked { IfOk result (λ held. IfFile locking.entry (is_some held.lock ≡ true)) }
    ensures err { IfErr result (IsRefusedBy (S.known system.now)) }
{
    match locking {
        Locking::Inventory => hold_inventory(system, alloc, watch, inventory),
        Locking::File(name) => hold_made(system, alloc, name),
        Locking::Nothing => Ok(held_unread(None)),
    }
}

fn hold_inventory<S: System, T: Observer>(
    system: &S,
    alloc: Global,
    watch: &mut T,
    inventory: &Source,
) -> Result<Held<S::Lock>, Fault>
    ensures ok { IfOk result (λ held. IsGiven (S.known system.now).files inventory.now held.given) }
    ensures read { IfOk result (λ held. is_some held.lock ≡ true → IsRead held.given) }
    ensures err { IfErr result (IsRefusedBy (S.known system.now)) }
{
    let name = match inventory {
        Source::File(name) => name.as_str(),
        Source::StandardInput => return Ok(without_lock(watch)),
    };
    match system.lock(name) {
        Ok(Some(lock)) => Ok(read_held(alloc, lock)),
        Ok(None) => Err(Fault::Locked),
        Err(error) if is_memory(&error) => Err(Fault::Memory),
        Err(_error) if system.is_there(name) => Ok(without_lock(watch)),
        // Reading it says why.
        Err(_error) => Ok(held_unread(None)),
    }
}

/// Reads the file whose lock is held.
fn read_held<L: Input>(alloc: Global, mut lock: L) -> Held<L>
    ensures from { IsReadFrom (L.remaining lock) (L.is_reliable lock) result.given }
    ensures read { IsRead result.given }
{
    let given = match read_input(alloc, &mut lock) {
        Ok(text) => Given::Text(text),
        Err(fault) => Given::Fault(fault),
    };
    Held {
        lock: Some(lock),
        given,
    }
}

fn held_unread<L>(lock: Option<L>) -> Held<L>
    ensures unread { result.given ≡ Given.Nothing }
    ensures lock { result.lock ≡ lock }
{
    Held {
        lock,
        given: Given::Nothing,
    }
}

fn without_lock<L, T: Observer>(watch: &mut T) -> Held<L>
    ensures unread { result.given ≡ Given.Nothing }
    ensures lock { result.lock ≡ None }
{
    watch.note(b"note: the inventory has no lock: another run of it is not kept out\n");
    held_unread(None)
}

/// Takes the lock of a file of its own, which has to be had.
fn hold_made<S: System>(system: &S, alloc: Global, name: &str) -> Result<Held<S::Lock>, Fault>
    ensures ok { IfOk result (λ held. (held.given ≡ Given.Nothing) × (is_some held.lock ≡ true)) }
    ensures err { IfErr result (IsRefusedBy (S.known system.now)) }
{
    match system.lock_made(name) {
        Ok(Some(lock)) => Ok(held_unread(Some(lock))),
        Ok(None) => Err(Fault::Locked),
        Err(error) if is_memory(&error) => Err(Fault::Memory),
        Err(_error) => Err(unreadable(alloc, name)),
    }
}

/// Tells behind all else if the name of the locked file leads to another file by now, as after `mv` or `sed -i`: a second run was not kept out.
pub(crate) fn report_replaced<S: System, T: Observer>(
    system: &S,
    alloc: Global,
    watch: &mut T,
    lock: &Option<S::Lock>,
) {
    if is_still(system, lock) {
        return;
    }
    let mut lines = Vec::new(alloc);
    if lines.extend_from_slice(REPLACED).is_ok() {
        watch.keep(lines);
    }
}

fn is_still<S: System>(system: &S, lock: &Option<S::Lock>) -> bool {
    match lock {
        Some(lock) => system.is_still(lock),
        None => true,
    }
}

fn unreadable(alloc: Global, name: &str) -> Fault
    ensures { IsUnlockable result }
{
    match String::from_str(alloc, name) {
        Ok(name) => Fault::Input {
            source: Source::File(name),
            fault: InputFault::File,
        },
        Err(AllocError) => Fault::Memory,
    }
}

/// The lock of the journal of a run that goes on, unless the inventory is named as one: then it is a bad journal.
pub(crate) fn hold_journal<S: System>(
    system: &S,
    inventory: &Source,
    journal: &str,
) -> Result<Option<S::Lock>, Fault>
    ensures { IfErr result (IsRefusedBy (S.known system.now)) }
{
    if is_of(system, inventory, journal) {
        return Ok(None);
    }
    match system.lock(journal) {
        Ok(Some(lock)) => Ok(Some(lock)),
        Ok(None) => Err(Fault::Locked),
        Err(error) if is_memory(&error) => Err(Fault::Memory),
        Err(_error) => Ok(None),
    }
}
