//! The process that holds a file's lock.
use crate::source::read_file;
use crate::system::System;
use std::alloc::Global;

/// Where Linux lists locks, one a line: `1: FLOCK  ADVISORY  WRITE 4711 fe:01:131074 0 EOF`.
const LOCKS: &str = "/proc/locks";

/// The device and the number of a file.
#[derive(Clone, Copy, PartialEq, Eq)]
pub struct FileId {
    pub device: u64,
    pub inode: u64,
}

/// The number of the process that holds the lock of the file of this name, if the system tells it.
pub(crate) fn holder_of<S: System>(system: &S, alloc: Global, name: &str) -> Option<String> {
    let id = system.file_id(name)?;
    let text = read_file(system, alloc, LOCKS).ok()?;
    let text = str::from_utf8(text.as_slice()).ok()?;
    for line in text.lines() {
        if let Some(process) = holder_in(line, id) {
            return String::from_str(alloc, process).ok();
        }
    }
    None
}

/// The holder that a line names, if it is of this file.
fn holder_in(line: &str, id: FileId) -> Option<&str> {
    let mut words = line.split_ascii_whitespace();
    if words.nth(1)? != "FLOCK" {
        return None;
    }
    let process = words.nth(2)?;
    if id_of(words.next()?)? == id {
        Some(process)
    } else {
        None
    }
}

/// What `MAJOR:MINOR:INODE` names; the first two are hexadecimal.
fn id_of(word: &str) -> Option<FileId> {
    let mut parts = word.split(':');
    let major = u64::from_str_radix(parts.next()?, 16).ok()?;
    let minor = u64::from_str_radix(parts.next()?, 16).ok()?;
    let inode = parts.next()?.parse::<u64>().ok()?;
    Some(FileId {
        device: device_of(major, minor),
        inode,
    })
}

/// A device's number as `stat` has it: the lowest eight bits of `minor`, twelve of `major`, and above them the rest of `minor`.
fn device_of(major: u64, minor: u64) -> u64 {
    minor & 0xff | (major & 0xfff) << 8 | (minor & 0xfff00) << 12
}
