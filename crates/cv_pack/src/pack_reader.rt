//! The reader of packs.
ghost use Rattle.std.specs.Prelude.{◌≡◌, ◌++◌, ◌∷◌, [], List, ℕ, None, Some, IfSome, IfOk};
ghost use Rattle.cv_base.specs.Unless.{IsUnless};
ghost use Rattle.cv_base.specs.declared.object.Object.{Object as Packed};
ghost use Rattle.cv_pack.specs.declared.pack_fault.PackFault.TheVariants as faults;
ghost use Rattle.cv_pack.specs.Pack.{IsPack, pack_bytes};
ghost use Rattle.cv_pack.specs.PackReader.{Fed, IsFed, fault_of, answer_of, pack_of, pack_in, IsFoundIn};
ghost use Rattle.cv_pack.specs.PackReaderInner.{Feeds};
ghost use Rattle.cv_pack.specs.Reading.{shown};

use crate::contents_reader::ContentsReader;
use crate::header_reader::HeaderReader;
use crate::pack::Pack;
use crate::pack_fault::PackFault;
use cv_base::Items;
use sha1::Sha1;
use std::alloc::Global;

/// Reads a pack that comes in pieces. What it answers is a function of all the bytes that it was fed,
/// however they were cut. It keeps the objects that were read, the one that was begun and the lines of
/// the header, and no byte twice.
#[derive(Drop)]
pub struct PackReader {
    alloc: Global,
    header: HeaderReader,
    header_hash: Sha1,
    contents: ContentsReader,
    fault: Option<PackFault>,
}

impl PackReader {
    /// A reader that was fed nothing.
    pub fn new(alloc: Global) -> PackReader
        ensures fed { Fed result [] }
        ensures fault { fault_of result ≡ None }
    {
        PackReader {
            alloc,
            header: HeaderReader::new(alloc),
            header_hash: Sha1::new(),
            contents: ContentsReader::new(alloc),
            fault: None,
        }
    }

    /// Takes the next bytes.
    fn read(&mut self, piece: &[u8]) -> Result<(), PackFault>
        ensures feeds { (bytes : List ℕ) → IsFed self.old bytes → Feeds self.new (bytes ++ piece.now) result }
        ensures fault { fault_of self.new ≡ fault_of self.old }
    {
        let used = self.header.read(piece)?;
        let (front, after) = piece.split_at(used);
        self.header_hash.update(front);
        if self.header.is_whole() {
            self.contents
                .read(self.alloc, self.header.entries(), after)?;
        }
        Ok(())
    }

    /// Takes the next bytes of the pack. The fault is the one that the bytes fed so far show by their
    /// earliest byte, never that bytes are lacking. After a fault, want of memory among them, the reader
    /// answers the same fault.
    pub fn feed(&mut self, piece: &[u8]) -> Result<(), PackFault>
        ensures fed { (bytes : List ℕ) → Fed self.old bytes → Fed self.new (bytes ++ piece.now) }
        ensures shows { (bytes : List ℕ) → Fed self.old bytes
            → IsUnless faults.NoMemory result (shown (bytes ++ piece.now)) }

        // A fault stays.
        ensures again { IfSome (fault_of self.old) (λ fault. result ≡ Err fault) }
        ensures kept { fault_of self.new ≡ answer_of result }
    {
        if let Some(fault) = self.fault {
            return Err(fault);
        }
        let result = self.read(piece);
        if let Err(fault) = result {
            self.fault = Some(fault);
        }
        result
    }

    /// The pack of all the bytes that were fed. Else the fault that they show, or that bytes are
    /// lacking: `Short` comes from here alone. It takes no memory, and `NoMemory` comes only where the
    /// reader has answered it before.
    pub fn finish(self) -> Result<Pack, PackFault>
        // What all the bytes read as, and which fault it is.
        ensures reads { (bytes : List ℕ) → Fed self bytes
            → IsUnless faults.NoMemory result (pack_in bytes) }

        // What is given is the pack whose bytes all of these are, and every pack's bytes give it.
        ensures found { IfOk result (λ pack. (bytes : List ℕ) → Fed self bytes → IsFoundIn bytes pack) }
        ensures only { (objects : List Packed) → IsPack objects → Fed self (pack_bytes objects)
            → IsUnless faults.NoMemory result (Ok (pack_of objects)) }

        ensures again { IfSome (fault_of self) (λ fault. result ≡ Err fault) }
        ensures no_memory { result ≡ Err faults.NoMemory → fault_of self ≡ Some faults.NoMemory }
    {
        if let Some(fault) = self.fault {
            return Err(fault);
        }
        let PackReader {
            header,
            header_hash,
            contents,
            ..
        } = self;
        if !header.is_whole() {
            return Err(PackFault::Short);
        }
        let ContentsReader { objects, .. } = contents;
        if objects.len() < header.entries().len() {
            return Err(PackFault::Short);
        }
        Ok(Pack {
            objects: Items::new(objects),
            header: header.length(),
            digest: header_hash.finalize(),
        })
    }
}
