//! Where journals are kept.
ghost use Rattle.std.specs.Prelude.{IfOk, List, ℕ};

use std::io;
use std::io::Write;

/// A file, what is written to which can be had on the disk.
pub trait DurableFile: Write + Drop {
    /// All that was written is on the disk.
    ghost is_on_disk: { Self → Type 0 };

    /// All that was written is on the disk then.
    fn sync(&self) -> io::Result<()>
        ensures { IfOk result (λ _. is_on_disk self.now) };
}

/// Makes files.
pub trait JournalStore {
    type Journal: DurableFile;

    /// The file is made under this name, and nothing has been written to it yet.
    ghost is_new: { Self.Journal → List ℕ → Type 0 };

    /// A new file of this name, which nobody but its owner may read; an error where anything of this name is there.
    fn create(&self, name: &str) -> io::Result<Self::Journal>
        ensures { IfOk result (λ file. is_new file name.now) };

    /// The file has under this name so many bytes from its beginning, and nothing behind them.
    ghost is_cut: { Self.Journal → List ℕ → ℕ → Type 0 };

    /// The file of this name, which is there, to go on behind so many bytes from its beginning; what it has behind them is gone.
    fn reopen(&self, name: &str, length: u64) -> io::Result<Self::Journal>
        ensures { IfOk result (λ file. is_cut file name.now length) };
}
