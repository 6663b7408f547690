//! What a vault over a folder asks of the system.
ghost use Rattle.std.specs.Prelude.{◌≡◌, ℕ, List, IfOk, IsSome, length, ◌≤◌};
ghost use Rattle.cv_system.specs.Calls.{Log, and_call, outcome, told, told_bytes, told_names, Looked, Opened, Created, Wrote, Synced, Begun, Ended, Checked, Read, Locked, Renamed, Removed, Made, Unmade, Entered, Named};

use crate::seen::Seen;
use std::alloc::Global;
use std::io;

/// What a vault over a folder asks of the system. Where it tells its log, each call adds itself to it, with what it was asked
/// and how it came out.
pub trait System {
    /// A file or a folder that is open. It is closed as it is dropped.
    type File: Drop;

    /// A folder whose names are read.
    type Names: Drop;

    /// The calls that were made of it, in their order, where it tells.
    ghost log: { Self → Log };

    /// The path that a file was opened at, where the log is told.
    ghost place: { Self.File → List ℕ };

    /// The path that a folder whose names are read was opened at, where the log is told.
    ghost folder: { Self.Names → List ℕ };

    /// What stands at a path. Of a link it tells the link itself.
    fn look(&mut self, path: &str) -> io::Result<Seen>
        ensures { log self.new ≡ and_call (Looked path.now (told result)) (log self.old) };

    /// Opens a file to read it, or a folder. Nothing but a folder is opened where a slash ends the path.
    fn open(&mut self, path: &str) -> io::Result<Self::File>
        ensures call { log self.new ≡ and_call (Opened path.now (outcome result)) (log self.old) }
        ensures place { IfOk result (λ file. IsSome (log self.new) → place file ≡ path.now) };

    /// Makes an empty file where nothing stands, not even a link, and opens it to write.
    fn create_new(&mut self, path: &str) -> io::Result<Self::File>
        ensures call { log self.new ≡ and_call (Created path.now (outcome result)) (log self.old) }
        ensures place { IfOk result (λ file. IsSome (log self.new) → place file ≡ path.now) };

    /// Writes all of the bytes behind those that were written.
    fn write_all(&mut self, file: &mut Self::File, bytes: &[u8]) -> io::Result<()>
        ensures call { log self.new
            ≡ and_call (Wrote (place file.old) bytes.now (outcome result)) (log self.old) }
        ensures place { place file.new ≡ place file.old };

    /// Makes durable what was written to a file, or what changed in a folder.
    fn sync(&mut self, file: &Self::File) -> io::Result<()>
        ensures { log self.new ≡ and_call (Synced (place file.now) (outcome result)) (log self.old) };

    /// Takes an open file that was written. It is durable for sure once a later `end_syncs` is done; the system may make it durable
    /// at once.
    fn begin_sync(&mut self, file: Self::File) -> io::Result<()>
        ensures { log self.new ≡ and_call (Begun (place file) (outcome result)) (log self.old) };

    /// Makes durable each file whose sync was begun and isn't ended yet. After an error something that was written to them is lost,
    /// which is said once.
    fn end_syncs(&mut self) -> io::Result<()>
        ensures { log self.new ≡ and_call (Ended (outcome result)) (log self.old) };

    /// What an open file is.
    fn check(&mut self, file: &Self::File) -> io::Result<Seen>
        ensures { log self.new ≡ and_call (Checked (place file.now) (told result)) (log self.old) };

    /// All bytes of a file that was just opened. It begins with room for so many.
    fn read_to_end(&mut self, alloc: Global, file: Self::File, room: usize) -> io::Result<Vec<u8>>
        ensures { log self.new ≡ and_call (Read (place file) (told_bytes result)) (log self.old) };

    /// Locks what is open, so that no other lock of it is given until it is closed. Whether no other lock was.
    fn lock(&mut self, file: &Self::File) -> io::Result<bool>
        ensures { log self.new ≡ and_call (Locked (place file.now) (told result)) (log self.old) };

    /// Gives a file another name, in place of what stands there.
    fn rename(&mut self, from: &str, to: &str) -> io::Result<()>
        ensures { log self.new ≡ and_call (Renamed from.now to.now (outcome result)) (log self.old) };

    /// Removes what stands at a path and is no folder. Of a link it removes the link itself.
    fn remove_file(&mut self, path: &str) -> io::Result<()>
        ensures { log self.new ≡ and_call (Removed path.now (outcome result)) (log self.old) };

    /// Makes a folder where nothing stands.
    fn make_folder(&mut self, path: &str) -> io::Result<()>
        ensures { log self.new ≡ and_call (Made path.now (outcome result)) (log self.old) };

    /// Removes an empty folder.
    fn remove_folder(&mut self, path: &str) -> io::Result<()>
        ensures { log self.new ≡ and_call (Unmade path.now (outcome result)) (log self.old) };

    /// Opens a folder to read the names in it.
    fn open_names(&mut self, path: &str) -> io::Result<Self::Names>
        ensures call { log self.new ≡ and_call (Entered path.now (outcome result)) (log self.old) }
        ensures folder { IfOk result (λ names. IsSome (log self.new) → folder names ≡ path.now) };

    /// Reads more names of a folder into the buffer, with a NUL behind each, and answers how many bytes they are. There are no
    /// more where it answers 0.
    fn read_names(&mut self, names: &mut Self::Names, buffer: &mut [u8]) -> io::Result<usize>
        ensures within { IfOk result (λ count. count ≤ length buffer.new) }
        ensures call { log self.new
            ≡ and_call (Named (folder names.old) (told_names result buffer.new)) (log self.old) }
        ensures folder { folder names.new ≡ folder names.old };
}
