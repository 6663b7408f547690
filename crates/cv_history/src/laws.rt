//! Laws of records and their chains.
ghost use Rattle.std.specs.Prelude.{◌≡◌, ℕ, List, Ok};
ghost use Rattle.hex.specs.Hex.{IsBytes};
ghost use Rattle.cv_base.specs.declared.id.ObjectId.{ObjectId};
ghost use Rattle.cv_ports.specs.Shelf.{Shelf};
ghost use Rattle.cv_history.specs.Record.{Spells};
ghost use Rattle.cv_history.specs.Reading.{record_of};
ghost use Rattle.cv_history.specs.Chain.{Chain, StandsAt, Breaks};
ghost use Rattle.cv_history.specs.declared.chain_fault.ChainFault.{ChainFault};
ghost use Rattle.cv_history.specs.declared.record.Record.{Record};

/// Bytes spell one record at most.
pub fn bytes_spell_one_record()
    ensures { (bytes : List ℕ) (a b : Record) → Spells bytes a → Spells bytes b → a ≡ b }
{}

/// Bytes that spell a record are read as that record.
pub fn what_is_spelled_is_read()
    ensures { (bytes : List ℕ) (r : Record) → Spells bytes r → record_of bytes ≡ Ok r }
{}

/// Bytes that are read as a record spell it.
pub fn what_is_read_is_spelled()
    ensures { (bytes : List ℕ) (r : Record) → IsBytes bytes → record_of bytes ≡ Ok r → Spells bytes r }
{}

/// For a shelf, an id and a revision there is one list of records at most.
pub fn an_id_names_one_chain()
    ensures { (shelf : Shelf) (id : ObjectId) (revision : ℕ) (a b : List Record) → Chain (StandsAt shelf) revision id a → Chain (StandsAt shelf) revision id b → a ≡ b }
{}

/// Where there is a chain nothing is amiss.
pub fn a_chain_does_not_break()
    ensures { (shelf : Shelf) (id : ObjectId) (revision : ℕ) (rs : List Record) (fault : ChainFault) → Chain (StandsAt shelf) revision id rs → Breaks shelf revision id fault → ⊥ }
{}

/// A chain breaks in one way.
pub fn a_chain_breaks_in_one_way()
    ensures { (shelf : Shelf) (id : ObjectId) (revision : ℕ) (a b : ChainFault) → Breaks shelf revision id a → Breaks shelf revision id b → a ≡ b }
{}
