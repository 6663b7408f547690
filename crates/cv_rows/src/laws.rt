//! Laws of row files.
ghost use Rattle.std.specs.Prelude.{◌≡◌, ◌≢◌, ℕ, List};
ghost use Rattle.cv_base.specs.Path.{Path};
ghost use Rattle.cv_rows.specs.Catalogue.{Contents, IsCatalogue, catalogue_bytes};
ghost use Rattle.cv_rows.specs.Faults.{IsFirstFault};
ghost use Rattle.cv_rows.specs.declared.row_fault.RowFault.{RowFault};
ghost use Rattle.cv_rows.specs.declared.row_fault.RowFault.TheVariants as fault;

/// A catalogue has one spelling: two with the same row file have the same rows and nested entries.
pub fn one_spelling()
    ensures { (a b : Contents) → IsCatalogue a → IsCatalogue b → catalogue_bytes a ≡ catalogue_bytes b → (a.rows ≡ b.rows) × (a.nested ≡ b.nested) }
{}

/// Bytes have at most one first fault as a row file at a place, but for want of memory, which says nothing of them.
pub fn one_first_fault()
    ensures { (bytes : List ℕ) (at : Path) (f g : RowFault) → f ≢ fault.NoMemory → g ≢ fault.NoMemory → IsFirstFault bytes at f → IsFirstFault bytes at g → f ≡ g }
{}
