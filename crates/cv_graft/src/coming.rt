//! What comes to a path.
ghost use Rattle.std.specs.Prelude.{◌≡◌, ◌≢◌, ◌++◌, List, true, false, OnOk};
ghost use Rattle.cv_base.specs.Marker.{marker, ends_in};
ghost use Rattle.cv_base.specs.Objects.{AreNamed};
ghost use Rattle.cv_base.specs.Path.{Path, covers};
ghost use Rattle.cv_base.specs.declared.object.Object.{Object as TheObject};
ghost use Rattle.cv_graft.specs.MakesInner.{Joins, Outcomes};

use crate::graft_fault::GraftFault;
use cv_base::{Object, RepoPath};
use cv_rows::Catalogue;
use std::alloc::Global;

/// What comes to a path: what another tree has there, or a part.
pub(crate) trait Coming {
    /// It may come to a path.
    ghost ready: { Self → Path → Type 0 };

    /// What becomes of the catalogue that directly holds a path.
    ghost outcomes: { Self → Path → Outcomes };

    /// The catalogues of its own.
    ghost own: { Self → List TheObject };

    /// The catalogue of a cut that directly holds a path, with what comes there. Its own catalogues are added.
    fn join(
        &self,
        alloc: Global,
        at: &RepoPath,
        catalogue: Catalogue,
        path: &RepoPath,
        added: &mut Vec<Object>,
    ) -> Result<Catalogue, GraftFault>
        requires place { catalogue.at ≡ at.now }
        requires below { covers catalogue.at path.now ≡ true }
        requires apart { path.now ≢ catalogue.at }
        requires unmarked { ends_in marker path.now ≡ false }
        requires ready { ready self.now path.now }
        ensures joins { Joins (outcomes self.now path.now) catalogue result }
        ensures added { OnOk result (added.new.items ≡ added.old.items ++ own self.now) }
        ensures named { OnOk result (AreNamed added.old.items → AreNamed added.new.items) };
}
