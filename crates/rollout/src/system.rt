//! What the system gives the program: the words of its line, and files; and whoever types its commands.
ghost use Rattle.std.specs.Prelude.{◌≡◌, Bool, List, ℕ, Option, None, IfOk, IfErr, IfSome, is_none, map, string_bytes, true};
ghost use Rattle.std.specs.IoError.{error_kind};
ghost use Rattle.command_line.specs.Wishes.{wish_as};
ghost use Rattle.rollout.specs.Systems.{Fails, Gives, IsTold, Known, KnownFiles, Opens, nothing_known};
ghost use Rattle.rollout.specs.Watching.{IsSeenSo};

use crate::folder::folder_of;
use crate::holder::FileId;
use bounded_io::{Fallible, Input};
use command_line::Options;
use journal_writer::{DurableFile, JournalStore};
use rehearse::Prompt;
use run_progress::{Seen, width};
use std::env::{Env, FillError};
use std::fs::OpenFile;
use std::io::{IsTerminal, Read, Stderr, Stdout, Write};
use std::os::unix::fs::{MetadataExt, OpenOptionsExt};
use std::process::{Processes, SystemProcess};
use std::{env, fs, io};

/// A system, by the words and the files that it gives. What holds of each system that says what it gives holds of the real
/// one, of which nothing is known beforehand.
pub trait System: Prompt + JournalStore {
    type File: Input + Drop;

    ghost words: { Self → Known (List (List ℕ)) } = { λ _. None };

    ghost known: { Self → KnownFiles } = { λ _. nothing_known };

    /// The words of the line, the program's name first.
    fn args(&self) -> io::Result<Vec<String>>
        ensures ok { IfOk result (λ args. Gives (words self.now) (map string_bytes args.items)) }
        ensures err { IfErr result (λ error. Fails (words self.now) (error_kind error)) };

    fn open(&self, name: &str) -> io::Result<Self::File>
        ensures ok { IfOk result (λ file. Opens ((known self.now).files name.now) (Self.File.remaining file) (Self.File.is_reliable file)) }
        ensures err { IfErr result (λ error. Fails ((known self.now).files name.now) (error_kind error)) };

    /// A file that is written anew.
    type Output: Write + Drop;

    /// The file of this name, made where none is there, with nothing in it.
    fn write_to(&self, name: &str) -> io::Result<Self::Output>;

    /// Holds the lock of a file for as long as it is there, and reads the file.
    type Lock: Input + Drop;

    /// The lock of the file of this name; none where another holds it, and an error where the file has no lock.
    fn lock(&self, name: &str) -> io::Result<Option<Self::Lock>>
        ensures read { IfOk result (λ lock. IfSome lock (λ lock. Opens ((known self.now).files name.now) (Self.Lock.remaining lock) (Self.Lock.is_reliable lock))) }
        ensures held { IfOk result (λ lock. IsTold ((known self.now).held name.now) (is_none lock)) };

    /// The same of a file that is made if it isn't there.
    fn lock_made(&self, name: &str) -> io::Result<Option<Self::Lock>>
        ensures { IfOk result (λ lock. IsTold ((known self.now).held name.now) (is_none lock)) };

    /// Whether the name by which the file was locked still leads to it.
    fn is_still(&self, lock: &Self::Lock) -> bool;

    /// Whether another program holds the lock of the file of this name.
    fn is_held(&self, name: &str) -> bool
        ensures { IsTold ((known self.now).held name.now) result };

    /// Whether there is a file of this name now, of whatever kind.
    fn is_there(&self, name: &str) -> bool
        ensures { IsTold ((known self.now).there name.now) result };

    /// Whether a file of this name would be seen if it was made: its folder is there and can be searched.
    fn may_appear(&self, name: &str) -> bool;

    /// How what is told is seen, by what was asked for. How wide the lines may be is asked for where one may be drawn.
    fn seen(&self, wishes: &Options, draws: bool) -> Seen
        ensures { IsSeenSo (wish_as wishes.now) draws result };

    ghost may_watch: { Self → Bool } = { λ _. true };

    /// Whether somebody looks at what is reported: standard error is a terminal.
    fn is_watched(&self) -> bool
        ensures { result ≡ true → may_watch self.now ≡ true };

    /// Whether there is a file of this name that can be read more than once.
    fn is_file(&self, name: &str) -> bool;

    /// What tells the file of this name from all others, if it is there.
    fn file_id(&self, name: &str) -> Option<FileId>;

    /// Whether what is printed is coloured where it isn't said whether it is to be: a terminal shows it, and nobody has asked programs not to.
    fn shows_colours(&self) -> bool;
}

/// The system that runs the program; standard output; standard error; and the same where somebody types commands and is to see on it that the next one is
/// awaited.
#[derive(Drop)]
pub struct Host<'a, R> {
    rt: &'a R,
    out: Stdout,
    errors: Stderr,
    prompts: Option<Stderr>,
}

impl<'a, R> Host<'a, R> {
    pub fn new(rt: &'a R, out: Stdout, errors: Stderr, prompts: Option<Stderr>) -> Host<'a, R> {
        Host {
            rt,
            out,
            errors,
            prompts,
        }
    }
}

impl<R> Prompt for Host<'_, R> {
    /// A prompt that can't be written is passed over.
    fn prompt(&self) {
        if let Some(errors) = &self.prompts {
            let _ = io::writer(errors).write(b"> ");
        }
    }
}

/// A file of the system.
#[derive(Drop)]
pub struct OnDisk<F>(F);

impl<F: Write> Write for OnDisk<F> {
    ghost contents = { λ file. F.contents file.0 };

    fn write(&mut self, bytes: &[u8]) -> io::Result<usize> {
        self.0.write(bytes)
    }

    fn flush(&mut self) -> io::Result<()> {
        self.0.flush()
    }
}

impl<F: Write + OpenFile + Drop> DurableFile for OnDisk<F> {
    ghost is_on_disk = { λ _. Unit {0} };

    fn sync(&self) -> io::Result<()> {
        self.0.sync_data()
    }
}

/// Locks a file that nobody else has opened; where its file system has no locks it stays without one.
fn lock_new(file: &fs::File) -> io::Result<()> {
    match file.try_lock() {
        Ok(()) | Err(fs::TryLockError::Error(_)) => Ok(()),
        Err(fs::TryLockError::WouldBlock) => Err(io::ErrorKind::WouldBlock.into()),
    }
}

impl<R: fs::Files<File = fs::File>> JournalStore for Host<'_, R> {
    type Journal = OnDisk<R::File>;

    ghost is_new = { λ _ _. Unit {0} };

    ghost is_cut = { λ _ _ _. Unit {0} };

    /// Its folder is on the disk too, so that the file is found there. It is locked while it is there: a run that is to go on with it is refused meanwhile.
    fn create(&self, name: &str) -> io::Result<OnDisk<R::File>> {
        let mut how = fs::OpenOptions::new();
        how.append(true).create_new(true).mode(0o600);
        let file = how.open(self.rt, name)?;
        lock_new(&file)?;
        fs::open(self.rt, folder_of(name))?.sync_all()?;
        Ok(OnDisk(file))
    }

    /// A link isn't followed.
    fn reopen(&self, name: &str, length: u64) -> io::Result<OnDisk<R::File>> {
        if !fs::symlink_metadata(self.rt, name)?.is_file() {
            return Err(io::ErrorKind::Unsupported.into());
        }
        let mut how = fs::OpenOptions::new();
        how.append(true);
        let file = how.open(self.rt, name)?;
        file.set_len(length)?;
        file.sync_all()?;
        Ok(OnDisk(file))
    }
}

impl<R: Env + fs::Files<File = fs::File> + AllocGlobal + Processes<Started = SystemProcess>> System
    for Host<'_, R> {
    type File = Fallible<R::File>;

    type Output = OnDisk<R::File>;

    type Lock = LockedFile<fs::File>;

    fn args(&self) -> io::Result<Vec<String>> {
        Ok(env::args(self.rt)?.collect(self.rt.alloc())?)
    }

    fn open(&self, name: &str) -> io::Result<Fallible<R::File>> {
        Ok(Fallible(fs::open(self.rt, name)?))
    }

    fn write_to(&self, name: &str) -> io::Result<OnDisk<R::File>> {
        let mut how = fs::OpenOptions::new();
        how.write(true).create(true).truncate(true);
        Ok(OnDisk(how.open(self.rt, name)?))
    }

    /// A pipe isn't opened for it, since it could be read once alone.
    fn lock(&self, name: &str) -> io::Result<Option<LockedFile<fs::File>>> {
        if !fs::metadata(self.rt, name)?.is_file() {
            return Err(io::ErrorKind::Unsupported.into());
        }
        let mut how = fs::OpenOptions::new();
        how.read(true);
        lock_by(self.rt, name, &how)
    }

    fn lock_made(&self, name: &str) -> io::Result<Option<LockedFile<fs::File>>> {
        let mut how = fs::OpenOptions::new();
        how.append(true).create(true).mode(0o600);
        lock_by(self.rt, name, &how)
    }

    fn is_still(&self, lock: &LockedFile<fs::File>) -> bool {
        lock.is_still(self.rt)
    }

    fn is_held(&self, name: &str) -> bool {
        is_held(self.rt, name).unwrap_or(false)
    }

    fn is_there(&self, name: &str) -> bool {
        fs::exists(self.rt, name).unwrap_or(false)
    }

    fn may_appear(&self, name: &str) -> bool {
        let has_folder = match fs::metadata(self.rt, folder_of(name)) {
            Ok(folder) => folder.is_dir(),
            Err(_) => false,
        };
        has_folder && !name.is_empty() && fs::exists(self.rt, name).is_ok()
    }

    fn seen(&self, wishes: &Options, draws: bool) -> Seen {
        let is_terminal = self.errors.is_terminal();
        let is_dumb = is_dumb(self.rt);
        let width = if draws && is_terminal && !is_dumb && !wishes.is_verbose && !wishes.is_quiet {
            width(self.rt, self.rt.alloc())
        } else {
            0
        };
        Seen {
            is_verbose: wishes.is_verbose,
            is_quiet: wishes.is_quiet,
            is_json: wishes.is_json,
            is_terminal,
            is_dumb,
            width,
        }
    }

    fn is_watched(&self) -> bool {
        self.errors.is_terminal()
    }

    fn is_file(&self, name: &str) -> bool {
        match fs::metadata(self.rt, name) {
            Ok(metadata) => metadata.is_file(),
            Err(_) => false,
        }
    }

    fn file_id(&self, name: &str) -> Option<FileId> {
        match fs::metadata(self.rt, name) {
            Ok(metadata) => Some(id_of(&metadata)),
            Err(_) => None,
        }
    }

    fn shows_colours(&self) -> bool {
        self.out.is_terminal() && !is_dumb(self.rt) && !refuses_colours(self.rt)
    }
}

/// How often a file is locked that was replaced before its lock was held.
const MOST_TRIES: usize = 100;

/// A file with its lock, and the name that led to it.
#[derive(Drop)]
pub struct LockedFile<F> {
    name: String,
    file: F,
}

impl<F: Read> Read for LockedFile<F> {
    ghost remaining = { λ locked. F.remaining locked.file };

    fn read(&mut self, buf: &mut [u8]) -> io::Result<usize> {
        self.file.read(buf)
    }
}

impl<F: Read> Input for LockedFile<F> {
    ghost use Rattle.std.specs.Prelude.{false};

    ghost is_reliable = { λ _. false };

    fn read_some(&mut self, room: &mut [u8]) -> Option<usize> {
        self.file.read(room).ok()
    }
}

impl LockedFile<fs::File> {
    /// Whether its name still leads to it; where the system doesn't say, it is taken to.
    fn is_still<R: fs::Files<File = fs::File>>(&self, rt: &R) -> bool {
        match (self.file.metadata(), fs::metadata(rt, self.name.as_str())) {
            (Ok(locked), Ok(named)) => id_of(&locked) == id_of(&named),
            (Ok(_locked), Err(_gone)) => false,
            (Err(_unknown), _) => true,
        }
    }
}

fn id_of(metadata: &fs::Metadata) -> FileId {
    FileId {
        device: metadata.dev(),
        inode: metadata.ino(),
    }
}

/// Opens the file of this name and takes its lock; none if another holds that, or if the name leads to another file each time.
fn lock_by<R: fs::Files<File = fs::File> + AllocGlobal>(
    rt: &R,
    name: &str,
    how: &fs::OpenOptions,
) -> io::Result<Option<LockedFile<fs::File>>> {
    for _ in 0..MOST_TRIES {
        let file = how.open(rt, name)?;
        if !is_locked_by(&file)? {
            return Ok(None);
        }
        let name = String::from_str(rt.alloc(), name)?;
        let locked = LockedFile { name, file };
        if locked.is_still(rt) {
            return Ok(Some(locked));
        }
    }
    Ok(None)
}

/// Takes the file's lock, unless another holds it.
fn is_locked_by(file: &fs::File) -> io::Result<bool> {
    match file.try_lock() {
        Ok(()) => Ok(true),
        Err(fs::TryLockError::WouldBlock) => Ok(false),
        Err(fs::TryLockError::Error(error)) => Err(error),
    }
}

/// A shared lock is enough to ask, so that two who ask at once don't take each other for the holder.
fn is_held<R: fs::Files<File = fs::File>>(rt: &R, name: &str) -> io::Result<bool> {
    if !fs::metadata(rt, name)?.is_file() {
        return Ok(false);
    }
    match fs::open(rt, name)?.try_lock_shared() {
        Err(fs::TryLockError::WouldBlock) => Ok(true),
        Ok(()) | Err(fs::TryLockError::Error(_)) => Ok(false),
    }
}

/// Whether `TERM` says that the terminal can't go back in a line.
fn is_dumb<R: Env>(rt: &R) -> bool {
    let mut bytes = [0; 8];
    match rt.var("TERM", &mut bytes) {
        Ok(len) => &bytes[..len] == b"dumb".as_slice(),
        Err(_) => false,
    }
}

/// Whether `NO_COLOR` is set, and not to an empty text.
fn refuses_colours<R: Env>(rt: &R) -> bool {
    match rt.var("NO_COLOR", &mut [0; 8]) {
        Ok(len) => len > 0,
        Err(FillError::TooLong) => true,
        Err(FillError::NotPresent) => false,
    }
}
