//! Laws of manifests.
ghost use Rattle.std.specs.Prelude.{◌≡◌, ℕ, Bool, List};
ghost use Rattle.cv_manifest.specs.Manifest.{Says};
ghost use Rattle.cv_manifest.specs.Fault.{Shows};
ghost use Rattle.cv_manifest.specs.declared.manifest.Manifest.{Manifest};
ghost use Rattle.cv_manifest.specs.declared.manifest_fault.ManifestFault.{ManifestFault};
ghost use Rattle.cv_manifest.specs.declared.manifest_fault.ManifestFault.TheVariants as faults;

/// A text says one manifest at most.
pub fn a_text_says_one_manifest()
    ensures { (is_seal : List ℕ → List ℕ → Bool) (text : List ℕ) (a b : Manifest)
        → Says is_seal text a → Says is_seal text b → a ≡ b }
{}

/// A text that says a manifest shows no fault, but for want of memory, which says nothing of it.
pub fn a_manifest_shows_no_fault()
    ensures { (is_seal : List ℕ → List ℕ → Bool) (text : List ℕ) (m : Manifest) (fault : ManifestFault)
        → Says is_seal text m → Shows is_seal text fault → fault ≡ faults.NoMemory }
{}
