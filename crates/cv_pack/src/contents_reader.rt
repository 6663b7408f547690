//! The reader of a pack's contents.
ghost use Rattle.std.specs.Prelude.{◌≡◌, ◌+◌, ◌≤◌, ◌<◌, ◌++◌, [], List, length, OnOk};
ghost use Rattle.sha1.specs.Sha1.{Holds};
ghost use Rattle.cv_pack.specs.declared.entry.Entry.{Entry as Line};
ghost use Rattle.cv_pack.specs.declared.header_reader.TheConstants.{HEADER_LIMIT};
ghost use Rattle.cv_pack.specs.ContentsState.{IsOpen};
ghost use Rattle.cv_pack.specs.ContentsStateInner.{Closes, Reads};

use crate::entry::Entry;
use crate::pack_fault::PackFault;
use cv_base::{Bytes, NoMemory, Object};
use sha1::Sha1;
use std::alloc::Global;
use std::mem::replace;

/// Contents as far as they were read.
#[derive(Drop)]
pub struct ContentsReader {
    /// The objects whose contents were read.
    pub objects: Vec<Object>,
    /// What was read of the next content.
    pub begun: Vec<u8>,
    /// The same, as SHA-1 has taken it in.
    pub hasher: Sha1,
}

impl ContentsReader {
    /// Nothing was read.
    pub fn new(alloc: Global) -> ContentsReader
        ensures objects { result.objects.items ≡ [] }
        ensures is_open { (es : List Line) → IsOpen result es }
    {
        ContentsReader {
            objects: Vec::new(alloc),
            begun: Vec::new(alloc),
            hasher: Sha1::new(),
        }
    }

    /// Takes bytes of the content that is being read, which is to have this size.
    fn extend(&mut self, alloc: Global, size: usize, bytes: &[u8]) -> Result<(), NoMemory>
        ensures begun { OnOk result (self.new.begun.items ≡ self.old.begun.items ++ bytes.now) }
        ensures hash { Holds self.old.hasher self.old.begun.items → OnOk result (Holds self.new.hasher self.new.begun.items) }
        ensures objects { self.new.objects ≡ self.old.objects }
    {
        if self.begun.is_empty() {
            self.begun = Vec::with_capacity(alloc, size)?;
        }
        self.begun.extend_from_slice(bytes)?;
        self.hasher.update(bytes);
        Ok(())
    }

    /// Ends the content that was read, which is that of this entry.
    fn close(&mut self, alloc: Global, entry: &Entry) -> Result<(), PackFault>
        requires { length self.old.objects.items < HEADER_LIMIT }
        ensures closes { Holds self.old.hasher self.old.begun.items → Closes self.old self.new entry.now result }
        ensures count { OnOk result (length self.new.objects.items ≡ length self.old.objects.items + 1) }
    {
        let hash = replace(&mut self.hasher, Sha1::new()).finalize();
        if hash != entry.id.hash {
            return Err(PackFault::HashDiffers(self.objects.len() as u32));
        }
        let bytes = Bytes::new(replace(&mut self.begun, Vec::new(alloc)));
        self.objects.push(Object {
            id: entry.id,
            bytes,
        })?;
        Ok(())
    }

    /// Takes the next bytes after the header of these entries. After an error nothing is said of what
    /// is left.
    pub fn read(&mut self, alloc: Global, entries: &[Entry], piece: &[u8]) -> Result<(), PackFault>
        requires { length entries.now ≤ HEADER_LIMIT }
        ensures { IsOpen self.old entries.now → Reads self.old self.new entries.now piece.now result }
    {
        let mut rest = piece;
        'contents: while self.objects.len() < entries.len() {
            let entry = &entries[self.objects.len()];
            let size = entry.size as usize;
            let missing = size.saturating_sub(self.begun.len());
            if rest.len() < missing {
                self.extend(alloc, size, rest)?;
                return Ok(());
            }
            let (front, after) = rest.split_at(missing);
            self.extend(alloc, size, front)?;
            self.close(alloc, entry)?;
            rest = after;
        }
        if rest.is_empty() {
            Ok(())
        } else {
            Err(PackFault::Trailing)
        }
    }
}
