//! Changes.
ghost use Rattle.std.specs.Prelude.{◌≡◌};
ghost use Rattle.cv_overlay.specs.Changes.{AreContents};

use cv_base::{Items, Object};
use cv_tree::Tree;
use std::marker::Model;

/// The entries of a folder, whiteouts too, with the contents of the files that it names. The tree's root stands for the folder itself.
#[derive(Drop)]
pub struct Changes {
    pub(crate) tree: Tree,
    pub(crate) objects: Items<Object>,
}

impl Model for Changes {
    ghost use Rattle.cv_tree.specs.Tree.{IsTree};
    ghost use Rattle.std.specs.FinMap as map;
    ghost use Rattle.std.specs.Prelude.{List, refl};
    ghost use Rattle.std.specs.Coded.{code_by, coded×, coded_ℕ, coded_list};
    ghost use Rattle.cv_base.specs.declared.object.Object.{Object};
    ghost use Rattle.cv_base.specs.contracts.object.Object as object;
    ghost use Rattle.cv_tree.specs.Tree.{Nodes};
    ghost use Rattle.cv_tree.specs.contracts.node.Node as node;
    ghost use Rattle.cv_overlay.specs.Changes.{ChangesView, AreContents};

    ghost Value = { ChangesView };

    ghost coded = { code_by (Nodes × List Object) (coded× (map.code (coded_list (coded_list coded_ℕ)) node.the_row.coded) (coded_list object.the_row.coded)) (λ v. (v.nodes, v.objects)) (λ p. record { nodes = p.0; objects = p.1 }) (λ _. refl) };

    ghost view = { λ c. record { nodes = c.tree; objects = c.objects } };

    ghost invariant = { λ c. AreContents c.tree c.objects };
}

impl Changes {
    /// The contents of the files that the folder names, each id once, and none of more than 16 MiB.
    pub fn objects(&self) -> &[Object]
        ensures value { result.now ≡ self.now.objects }
        ensures contents { AreContents self.now.nodes self.now.objects }
    {
        self.objects.as_slice()
    }
}
