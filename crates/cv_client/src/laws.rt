//! What a text says is one thing.
//!
//! The functions do nothing. Their contracts hold of all texts.
ghost use Rattle.std.specs.Prelude.{◌≡◌, ℕ, List};
ghost use Rattle.cv_client.specs.Url.{IsUrl};
ghost use Rattle.cv_client.specs.declared.url.Url.{Url};

/// A text is at most one URL.
pub fn one_url()
    ensures { (text : List ℕ) (u u' : Url) → IsUrl text u → IsUrl text u' → u ≡ u' }
{}
