//! What a vault over a folder does, and which calls of the system it makes for it.
ghost use Rattle.std.specs.Prelude.{◌≡◌, ◌≢◌, ◌<◌, ◌+◌, ◌↔◌, ◌⊎◌, ◌||◌, ◌++◌, [], ◌∷◌, length, true, false, Ok, Err, None, IfErr, IfOk, IsOk, IsTrue, OnErr, OnOk, codes, is_ok, string_bytes, ⊤};
ghost use Rattle.std.specs.IoError.{error_kind};
ghost use Rattle.cv_base.specs.Counts.{HasCause};
ghost use Rattle.cv_folder.specs.Causes.{FailsBy, FailsToMove, FailsToRead, FailsToWrite, WantsMemory};
ghost use Rattle.cv_vault.specs.declared.vault.VaultFault.TheVariants.{Failed, NoMemory};
ghost use Rattle.cv_folder.specs.FolderVault.{Acts, Adds, AsksAlone, HoldsFirst, HoldsOrMakes, IsAboveName, IsUncalled, Notes, Rests, Serves, Stays, with_fault};
ghost use Rattle.cv_folder.specs.FolderVaultInner.{FailsToMake, FailsToMoveOn, FindsNamed, HasFolder, IsAt, MovesOn};
ghost use Rattle.cv_folder.specs.Hold.{Asked, Begins, IsHeld, IsRoot, MakesRoot, is_unasked};
ghost use Rattle.cv_system.specs.declared.path_buffer.TheConstants.{PATH_ROOM};
ghost use Rattle.cv_base.specs.Path.{with_slash};
ghost use Rattle.cv_system.specs.Names.{folder_of, is_name, path_of};
ghost use Rattle.cv_folder.specs.Listed.{FailsToList, IsListed, ListsNamed};
ghost use Rattle.cv_folder.specs.Noted.{is_noted};
ghost use Rattle.cv_folder.specs.Reads.{IsUnserved, MeasuresNamed, ReadsNamed};
ghost use Rattle.cv_system.specs.Calls.{IsWant, Removed, cause_of};
ghost use Rattle.cv_system.specs.Steps.{EndsFailed, Tries};
ghost use Rattle.cv_folder.specs.Writes.{MovesNamed, RemovesNamed, WritesFile};

use crate::folder_vault::FolderVault;
use crate::hold::{Hold, hold_of, make_held, refused};
use crate::listing::list_files;
use crate::making::make_folders;
use crate::noting::{note, note_or_all, own_text};
use crate::putting::{made_at, move_file, put_file};
use cv_base::{Bytes, Text};
use cv_system::looks::{find_file, is_memory, read_found};
use cv_system::{NEXT, Seen, System, folder_of, is_name, is_root};
use cv_vault::VaultFault;
use std::io;
use std::io::ErrorKind;

impl<S: System + Drop> FolderVault<S> {
    /// Sets the path of the folder, with a slash at its end, if it may be that of a vault's folder.
    pub(crate) fn has_root(&mut self) -> bool
        ensures root { IsTrue result ↔ IsRoot (string_bytes self.old.root) }
        ensures path { IsTrue result → self.new.path ≡ with_slash (string_bytes self.old.root) }
        ensures hold { self.new.hold ≡ self.old.hold }
        ensures stays { Stays self.old self.new }
        ensures faults { self.new.faults ≡ self.old.faults }
        ensures calls { IsUncalled S.log self.old self.new }
    {
        if !is_root(self.root.as_str()) {
            return false;
        }
        self.set_root().is_ok()
    }

    /// What the vault has of its folder: it holds it, if it is there.
    pub(crate) fn hold_now(&mut self) -> io::Result<Hold<S::File>>
        requires { self.old.hold ≡ Hold.Unasked }
        ensures asked { IfOk result (λ hold. Asked (string_bytes self.old.root) hold
            (S.log self.old.system) (S.log self.new.system)) }
        ensures known { IfOk result (λ hold. hold ≢ Hold.Unasked) }
        ensures fails { OnErr result (Asked (string_bytes self.old.root) self.old.hold
            (S.log self.old.system) (S.log self.new.system)) }
        ensures why { IfErr result (λ error. EndsFailed (cause_of error)
            (S.log self.old.system) (S.log self.new.system)) }
        ensures hold { self.new.hold ≡ self.old.hold }
        ensures stays { Stays self.old self.new }
        ensures faults { self.new.faults ≡ self.old.faults }
    {
        if !self.has_root() {
            return Ok(Hold::Refused);
        }
        hold_of(&mut self.system, self.path.as_str())
    }

    /// Makes the folder, which wasn't there, and holds it. What another process has made there since isn't taken: each
    /// later call of the vault fails.
    pub(crate) fn make_root(&mut self) -> io::Result<()>
        requires { self.old.hold ≡ Hold.Absent }
        ensures held { OnOk result (IsHeld self.new.hold) }
        ensures noted { ((self.new.hold ≡ Hold.Absent)
            × (S.log self.new.system ≡ S.log self.old.system))
            ⊎ IsTrue (is_noted self.new.folders.items (folder_of (string_bytes self.old.root))) }
        ensures adds { Adds (λ folder. folder ≡ folder_of (string_bytes self.old.root))
            self.old self.new }
        ensures holds { HoldsOrMakes self.old.hold self.new.hold }
        ensures faults { self.new.faults ≡ self.old.faults }
        ensures calls { MakesRoot (string_bytes self.old.root) self.new.hold
            (S.log self.old.system) (S.log self.new.system) }
        ensures why { IfErr result (λ error. WantsMemory (cause_of error)
            (S.log self.old.system) (S.log self.new.system)
            ⊎ FailsToMake (string_bytes self.old.root) self.new.hold (cause_of error)
            (S.log self.old.system) (S.log self.new.system)) }
    {
        note(&mut self.folders, folder_of(self.root.as_str()))?;
        self.set_root()?;
        match make_held(&mut self.system, self.root.as_str(), self.path.as_str())? {
            Some(open) => {
                self.hold = Hold::Held(open);
                Ok(())
            }
            None => {
                self.hold = Hold::Refused;
                Err(refused())
            }
        }
    }

    /// Sets the path of the folder, with a slash at its end.
    pub(crate) fn set_root(&mut self) -> io::Result<()>
        ensures ok { IsOk result ↔ (length (string_bytes self.old.root) + 1 < PATH_ROOM) }
        ensures kind { IfErr result (λ error. error_kind error ≡ ErrorKind.InvalidInput) }
        ensures path { OnOk result (self.new.path ≡ string_bytes self.old.root ++ 47 ∷ []) }
        ensures stays { Stays self.old self.new }
        ensures faults { self.new.faults ≡ self.old.faults }
        ensures hold { self.new.hold ≡ self.old.hold }
        ensures calls { IsUncalled S.log self.old self.new }
    {
        if self.path.set(self.root.as_str(), "/") {
            Ok(())
        } else {
            Err(refused())
        }
    }

    /// Sets the path of a name. A text that is none is refused, and one whose path is longer than the system takes.
    pub(crate) fn set_path(&mut self, name: &str) -> io::Result<()>
        ensures ok { IsOk result ↔ IsTrue (is_name name.now)
            × (length (path_of (string_bytes self.old.root) name.now) < PATH_ROOM) }
        ensures kind { IfErr result (λ error. error_kind error ≡ ErrorKind.InvalidInput) }
        ensures path { OnOk result (self.new.path ≡ path_of (string_bytes self.old.root) name.now) }
        ensures stays { Stays self.old self.new }
        ensures faults { self.new.faults ≡ self.old.faults }
        ensures hold { self.new.hold ≡ self.old.hold }
        ensures calls { IsUncalled S.log self.old self.new }
    {
        if is_name(name) && self.path.set_below(self.root.as_str(), name) {
            Ok(())
        } else {
            Err(refused())
        }
    }

    /// Sets the path of the own file beside the path that is set.
    pub(crate) fn set_next(&mut self) -> io::Result<()>
        ensures ok { IsOk result ↔ (length (folder_of self.old.path) + 11 < PATH_ROOM) }
        ensures kind { IfErr result (λ error. error_kind error ≡ ErrorKind.InvalidInput) }
        ensures next { OnOk result (self.new.next ≡ folder_of self.old.path ++ codes ".cvkit-next") }
        ensures path { self.new.path ≡ self.old.path }
        ensures stays { Stays self.old self.new }
        ensures faults { self.new.faults ≡ self.old.faults }
        ensures hold { self.new.hold ≡ self.old.hold }
        ensures calls { IsUncalled S.log self.old self.new }
    {
        if self.next.set(folder_of(self.path.as_str()), NEXT) {
            Ok(())
        } else {
            Err(refused())
        }
    }

    /// Where the names begin in the paths that they stand at.
    pub(crate) fn names_from(&self) -> usize
        ensures { result ≡ length (string_bytes self.now.root) + 1 }
    {
        self.root.len() + 1
    }

    /// Makes the path of a name, and tells whether the vault has a folder.
    pub(crate) fn begin(&mut self, name: &str) -> io::Result<bool>
        ensures held { IfOk result (λ has. HasFolder self.new.hold has) }
        ensures fails { OnErr result (IsUnserved (string_bytes self.old.root) name.now
            self.new.hold) }
        ensures why { IfErr result (λ error. FailsBy (string_bytes self.old.root) name.now
            self.new.hold (cause_of error) (S.log self.old.system) (S.log self.new.system)) }
        ensures path { OnOk result (IsAt self.new name.now × (self.old.hold ≢ Hold.Refused)) }
        ensures stays { Stays self.old self.new }
        ensures holds { HoldsFirst self.old self.new }
        ensures faults { self.new.faults ≡ self.old.faults }
        ensures asks { AsksAlone S.log self.old self.new }
    {
        let held = self.is_held()?;
        self.set_path(name)?;
        Ok(held)
    }

    /// Asks for the folder, if that wasn't done yet. What was there before it is held is unsettled.
    pub(crate) fn ask(&mut self) -> io::Result<()>
        ensures known { OnOk result (self.new.hold ≢ Hold.Unasked) }
        ensures fails { OnErr result (self.new.hold ≡ Hold.Unasked) }
        ensures all { IsHeld self.new.hold
            → self.new.is_unsettled ≡ (self.old.is_unsettled || is_unasked self.old.hold) }
        ensures why { IfErr result (λ error. EndsFailed (cause_of error)
            (S.log self.old.system) (S.log self.new.system)) }
        ensures stays { Stays self.old self.new }
        ensures holds { HoldsFirst self.old self.new }
        ensures faults { self.new.faults ≡ self.old.faults }
        ensures asks { AsksAlone S.log self.old self.new }
    {
        if !self.hold.is_unasked() {
            return Ok(());
        }
        let hold = self.hold_now()?;
        self.hold = hold;
        self.is_unsettled |= matches!(self.hold, Hold::Held(_));
        Ok(())
    }

    /// Whether the vault has a folder. What was there before it was held is unsettled.
    pub(crate) fn is_held(&mut self) -> io::Result<bool>
        ensures held { IfOk result (λ has. HasFolder self.new.hold has) }
        ensures refused { OnOk result (self.old.hold ≢ Hold.Refused) }
        ensures fails { OnErr result
            ((self.new.hold ≡ Hold.Unasked) ⊎ (self.new.hold ≡ Hold.Refused)) }
        ensures all { IsHeld self.new.hold
            → self.new.is_unsettled ≡ (self.old.is_unsettled || is_unasked self.old.hold) }
        ensures why { IfErr result (λ error.
            ((error_kind error ≡ ErrorKind.InvalidInput) × (self.new.hold ≡ Hold.Refused))
            ⊎ EndsFailed (cause_of error) (S.log self.old.system) (S.log self.new.system)) }
        ensures stays { Stays self.old self.new }
        ensures holds { HoldsFirst self.old self.new }
        ensures faults { self.new.faults ≡ self.old.faults }
        ensures asks { AsksAlone S.log self.old self.new }
    {
        self.ask()?;
        match &self.hold {
            Hold::Held(_) => Ok(true),
            Hold::Absent => Ok(false),
            Hold::Unasked | Hold::Refused => Err(refused()),
        }
    }

    /// The file of a name, if it is there. Its path is then set.
    pub(crate) fn find(&mut self, name: &str) -> io::Result<Option<Seen>>
        ensures path { OnOk result (IsAt self.new name.now × (self.old.hold ≢ Hold.Refused)) }
        ensures stays { Stays self.old self.new }
        ensures holds { HoldsFirst self.old self.new }
        ensures faults { self.new.faults ≡ self.old.faults }
        ensures calls { Acts S.log (FindsNamed (string_bytes self.old.root) name.now self.new.hold
            result) self.old self.new }
        ensures why { IfErr result (λ error. FailsBy (string_bytes self.old.root) name.now
            self.new.hold (cause_of error) (S.log self.old.system) (S.log self.new.system)) }
    {
        if !self.begin(name)? {
            return Ok(None);
        }
        let from = self.names_from();
        find_file(&mut self.system, self.path.as_str(), from)
    }

    /// One more fault.
    pub(crate) fn fault(&mut self) -> VaultFault
        ensures fault { result ≡ Failed }
        ensures stays { Stays self.old self.new }
        ensures calls { IsUncalled S.log self.old self.new }
        ensures hold { self.new.hold ≡ self.old.hold }
        ensures count { self.new.faults ≡ with_fault Failed self.old.faults }
        ensures cause { HasCause self.old.faults self.new.faults ⊤ }
    {
        self.faults = self.faults.saturating_add(1);
        VaultFault::Failed
    }

    /// Want of memory, or one more fault.
    pub(crate) fn fault_of(&mut self, error: &io::Error) -> VaultFault
        ensures memory { (result ≡ NoMemory) ↔ IsWant (cause_of error.now) }
        ensures calls { IsUncalled S.log self.old self.new }
        ensures hold { self.new.hold ≡ self.old.hold }
        ensures count { self.new.faults ≡ with_fault result self.old.faults }
        ensures cause { HasCause self.old.faults self.new.faults (result ≡ Failed) }
        ensures stays { Stays self.old self.new }
    {
        if is_memory(error) {
            VaultFault::NoMemory
        } else {
            self.fault()
        }
    }

    pub(crate) fn read_now(&mut self, name: &str) -> io::Result<Option<Bytes>>
        ensures refused { OnOk result (Serves self.old name.now) }
        ensures stays { Stays self.old self.new }
        ensures holds { HoldsFirst self.old self.new }
        ensures faults { self.new.faults ≡ self.old.faults }
        ensures calls { Acts S.log (ReadsNamed (string_bytes self.old.root) name.now self.new.hold
            result) self.old self.new }
        ensures why { IfErr result (λ error. FailsToRead (string_bytes self.old.root) name.now
            self.new.hold (cause_of error) (S.log self.old.system) (S.log self.new.system)) }
    {
        match self.find(name)? {
            Some(found) => {
                let path = self.path.as_str();
                let bytes = read_found(&mut self.system, self.alloc, path, &found)?;
                Ok(Some(Bytes::new(bytes)))
            }
            None => Ok(None),
        }
    }

    pub(crate) fn length_now(&mut self, name: &str) -> io::Result<Option<u64>>
        ensures refused { OnOk result (Serves self.old name.now) }
        ensures stays { Stays self.old self.new }
        ensures holds { HoldsFirst self.old self.new }
        ensures faults { self.new.faults ≡ self.old.faults }
        ensures calls { Acts S.log (MeasuresNamed (string_bytes self.old.root) name.now
            self.new.hold result) self.old self.new }
        ensures why { IfErr result (λ error. FailsBy (string_bytes self.old.root) name.now
            self.new.hold (cause_of error) (S.log self.old.system) (S.log self.new.system)) }
    {
        match self.find(name)? {
            Some(found) => Ok(Some(found.length)),
            None => Ok(None),
        }
    }

    pub(crate) fn list_now(&mut self, prefix: &str) -> io::Result<Vec<Text>>
        ensures listed { IfOk result (λ names. IsListed prefix.now names.items) }
        ensures refused { OnOk result (self.old.hold ≢ Hold.Refused) }
        ensures stays { Stays self.old self.new }
        ensures holds { HoldsFirst self.old self.new }
        ensures faults { self.new.faults ≡ self.old.faults }
        ensures calls { Acts S.log (ListsNamed (string_bytes self.old.root) self.new.hold result)
            self.old self.new }
        ensures why { IfErr result (λ error. FailsToList self.new.hold (cause_of error)
            (S.log self.old.system) (S.log self.new.system)) }
    {
        if !self.is_held()? {
            return Ok(Vec::new(self.alloc));
        }
        list_files(&mut self.system, self.alloc, self.root.as_str(), prefix)
    }

    /// Makes the path of a name, and the vault's folder, if none is there.
    pub(crate) fn begin_write(&mut self, name: &str) -> io::Result<()>
        ensures held { OnOk result (IsHeld self.new.hold × (self.old.hold ≢ Hold.Refused)) }
        ensures path { OnOk result (IsAt self.new name.now) }
        ensures adds { Adds (λ folder. folder ≡ folder_of (string_bytes self.old.root))
            self.old self.new }
        ensures holds { HoldsOrMakes self.old.hold self.new.hold }
        ensures faults { self.new.faults ≡ self.old.faults }
        ensures begins { Begins (string_bytes self.old.root) self.old.hold self.new.hold
            self.new.is_unsettled (is_noted self.new.folders.items)
            (S.log self.old.system) (S.log self.new.system) }
        ensures why { IfErr result (λ error. WantsMemory (cause_of error)
            (S.log self.old.system) (S.log self.new.system)
            ⊎ FailsToWrite (string_bytes self.old.root) name.now self.new.hold (cause_of error)
            (S.log self.old.system) (S.log self.new.system)) }
        ensures no_name { is_name name.now ≡ false → AsksAlone S.log self.old self.new }
    {
        if self.begin(name)? {
            return Ok(());
        }
        self.make_root()?;
        self.set_path(name)
    }

    pub(crate) fn write_now(&mut self, name: &str, bytes: &[u8]) -> io::Result<()>
        ensures refused { OnOk result (Serves self.old name.now × IsHeld self.new.hold) }
        ensures noted { OnOk result (Notes self.new name.now) }
        ensures adds { Adds (λ folder. (folder ≡ folder_of (string_bytes self.old.root))
            ⊎ IsAboveName self.old name.now folder) self.old self.new }
        ensures holds { HoldsOrMakes self.old.hold self.new.hold }
        ensures faults { self.new.faults ≡ self.old.faults }
        ensures calls { WritesFile (string_bytes self.old.root) name.now bytes.now self.old.hold
            self.new.hold self.new.is_unsettled (is_noted self.new.folders.items) (is_ok result)
            (S.log self.old.system) (S.log self.new.system) }
        ensures why { IfErr result (λ error. WantsMemory (cause_of error)
            (S.log self.old.system) (S.log self.new.system)
            ⊎ FailsToWrite (string_bytes self.old.root) name.now self.new.hold (cause_of error)
            (S.log self.old.system) (S.log self.new.system)) }
        ensures no_name { is_name name.now ≡ false → AsksAlone S.log self.old self.new }
    {
        self.begin_write(name)?;
        self.set_next()?;
        let from = self.names_from();
        make_folders(
            &mut self.system,
            self.path.as_str(),
            from,
            &mut self.folders,
        )?;
        let path = self.path.as_str();
        let at = made_at(name, self.next.as_str(), path);
        put_file(&mut self.system, at, name, path, bytes)
    }

    /// Gives the file that was found at the path that is set another name.
    pub(crate) fn move_found(&mut self, found: &Seen, to: &str) -> io::Result<()>
        ensures left { OnOk result (IsTrue
            (is_noted self.new.folders.items (folder_of self.old.path))) }
        ensures noted { OnOk result (Notes self.new to.now) }
        ensures adds { Adds (λ folder. (folder ≡ folder_of self.old.path)
            ⊎ IsAboveName self.old to.now folder) self.old self.new }
        ensures hold { self.new.hold ≡ self.old.hold }
        ensures faults { self.new.faults ≡ self.old.faults }
        ensures calls { MovesOn (string_bytes self.old.root) self.old.path to.now found.now
            (is_noted self.new.folders.items) (is_ok result)
            (S.log self.old.system) (S.log self.new.system) }
        ensures why { IfErr result (λ error. WantsMemory (cause_of error)
            (S.log self.old.system) (S.log self.new.system)
            ⊎ FailsToMoveOn (string_bytes self.old.root) to.now self.new.hold (cause_of error)
            (S.log self.old.system) (S.log self.new.system)) }
    {
        let source = own_text(self.alloc, self.path.as_str())?;
        self.set_path(to)?;
        note(&mut self.folders, folder_of(source.as_str()))?;
        let from = self.names_from();
        make_folders(
            &mut self.system,
            self.path.as_str(),
            from,
            &mut self.folders,
        )?;
        move_file(&mut self.system, source.as_str(), found, self.path.as_str())
    }

    /// Whether the file was there. A name doesn't take the place of itself.
    pub(crate) fn rename_now(&mut self, from: &str, to: &str) -> io::Result<bool>
        ensures refused { OnOk result (Serves self.old from.now × Serves self.old to.now) }
        ensures other { OnOk result (from.now ≢ to.now) }
        ensures left { result ≡ Ok true → Notes self.new from.now }
        ensures noted { result ≡ Ok true → Notes self.new to.now }
        ensures adds { Adds (λ folder. (folder
            ≡ folder_of (path_of (string_bytes self.old.root) from.now))
            ⊎ IsAboveName self.old to.now folder) self.old self.new }
        ensures holds { HoldsFirst self.old self.new }
        ensures faults { self.new.faults ≡ self.old.faults }
        ensures calls { from.now ≢ to.now → IsTrue (is_name to.now)
            → Acts S.log (MovesNamed (string_bytes self.old.root) from.now to.now self.new.hold
            (is_noted self.new.folders.items) result) self.old self.new }
        ensures rests { (from.now ≡ to.now) ⊎ (is_name to.now ≡ false)
            → Rests S.log self.old self.new }
        ensures why { IfErr result (λ error. WantsMemory (cause_of error)
            (S.log self.old.system) (S.log self.new.system)
            ⊎ FailsToMove (string_bytes self.old.root) from.now to.now self.new.hold
            (cause_of error) (S.log self.old.system) (S.log self.new.system)) }
    {
        if from == to {
            return Err(refused());
        }
        if !is_name(to) {
            return Err(refused());
        }
        match self.find(from)? {
            Some(found) => {
                self.move_found(&found, to)?;
                Ok(true)
            }
            None => Ok(false),
        }
    }

    /// Removes the file that was found at the path that is set. Where there is no room to note the folder, the next sync goes
    /// over all of them.
    pub(crate) fn remove_found(&mut self) -> io::Result<()>
        ensures noted { IsTrue (is_noted self.new.folders.items (folder_of self.old.path))
            ⊎ IsTrue self.new.is_unsettled }
        ensures adds { Adds (λ folder. folder ≡ folder_of self.old.path) self.old self.new }
        ensures hold { self.new.hold ≡ self.old.hold }
        ensures faults { self.new.faults ≡ self.old.faults }
        ensures calls { Tries (Removed self.old.path ∷ []) (is_ok result)
            (S.log self.old.system) (S.log self.new.system) }
        ensures why { IfErr result (λ error. EndsFailed (cause_of error)
            (S.log self.old.system) (S.log self.new.system)) }
    {
        let folder = folder_of(self.path.as_str());
        note_or_all(&mut self.folders, folder, &mut self.is_unsettled);
        self.system.remove_file(self.path.as_str())
    }

    /// Whether the file was there.
    pub(crate) fn remove_now(&mut self, name: &str) -> io::Result<bool>
        ensures refused { OnOk result (Serves self.old name.now) }
        ensures noted { result ≡ Ok true → Notes self.new name.now ⊎ IsTrue self.new.is_unsettled }
        ensures adds { Adds (λ folder. folder
            ≡ folder_of (path_of (string_bytes self.old.root) name.now)) self.old self.new }
        ensures holds { HoldsFirst self.old self.new }
        ensures faults { self.new.faults ≡ self.old.faults }
        ensures calls { Acts S.log (RemovesNamed (string_bytes self.old.root) name.now self.new.hold
            (is_noted self.new.folders.items) self.new.is_unsettled result) self.old self.new }
        ensures why { IfErr result (λ error. FailsBy (string_bytes self.old.root) name.now
            self.new.hold (cause_of error) (S.log self.old.system) (S.log self.new.system)) }
    {
        match self.find(name)? {
            Some(_found) => {
                self.remove_found()?;
                Ok(true)
            }
            None => Ok(false),
        }
    }
}
