//! What is found of a folder.
ghost use Rattle.std.specs.Prelude.{◌≡◌, ◌≤◌, ◌+◌, [], false, length, IfOk, None, Some};
ghost use Rattle.std.specs.FinMap as map;
ghost use Rattle.cv_base.specs.declared.limits.TheConstants.{OBJECT_LIMIT};
ghost use Rattle.sha1.specs.Sha1.{sha1};
ghost use Rattle.cv_base.specs.Attr.{IsAttr};
ghost use Rattle.cv_base.specs.ObjectId.{object_id};
ghost use Rattle.cv_base.specs.declared.id.Kind.TheVariants.{Plain};
ghost use Rattle.cv_tree.specs.Node.{IsNode};
ghost use Rattle.cv_tree.specs.Tree.{is_file, single};
ghost use Rattle.cv_tree.specs.declared.node.Node.TheVariants.{Dir};
ghost use Rattle.cv_overlay.specs.Changes.{AreContents};
ghost use Rattle.cv_overlay.specs.Walk.{root_attr};
ghost use Rattle.cv_overlay.specs.declared.bounds.TheConstants.{SUM_LIMIT};
ghost use Rattle.cv_overlay.specs.FoundInner.{with_node, with_file, kept_content};

use crate::changes::Changes;
use crate::contents::Contents;
use crate::whiteout::is_whiteout;
use cv_base::{Attr, NoMemory, Object, RepoPath};
use cv_tree::{FileRef, Node, Tree};
use std::alloc::Global;
use std::marker::Model;

/// What was found of a folder so far: the nodes of its items, the contents of its files, and the bytes of all files.
#[derive(Drop)]
pub(crate) struct Found {
    tree: Tree,
    contents: Contents,
    sum: u64,
}

impl Model for Found {
    ghost use Rattle.std.specs.Prelude.{◌≤◌};
    ghost use Rattle.cv_overlay.specs.Changes.{AreContents};
    ghost use Rattle.cv_overlay.specs.FoundInner.{FoundView};
    ghost use Rattle.cv_overlay.specs.declared.bounds.TheConstants.{SUM_LIMIT};
    ghost use Rattle.std.specs.FinMap as map;
    ghost use Rattle.std.specs.Prelude.{List, ℕ, refl};
    ghost use Rattle.std.specs.Coded.{code_by, coded×, coded_ℕ, coded_list};
    ghost use Rattle.cv_base.specs.declared.object.Object.{Object};
    ghost use Rattle.cv_base.specs.contracts.object.Object as object;
    ghost use Rattle.cv_tree.specs.Tree.{Nodes};
    ghost use Rattle.cv_tree.specs.contracts.node.Node as node;

    ghost Value = { FoundView };

    ghost coded = { code_by (Nodes × (List Object × ℕ)) (coded× (map.code (coded_list (coded_list coded_ℕ)) node.the_row.coded) (coded× (coded_list object.the_row.coded) coded_ℕ)) (λ v. (v.nodes, (v.objects, v.sum))) (λ p. record { nodes = p.0; objects = p.1.0; sum = p.1.1 }) (λ _. refl) };

    ghost view = { λ f. record { nodes = f.tree; objects = f.contents; sum = f.sum } };

    ghost invariant = { λ f. AreContents f.tree f.contents × (f.sum ≤ SUM_LIMIT) };
}

/// A tree with one node more at a path that is not there yet. A place that is taken, or has no directory above it, is told
/// as want of memory: a walk comes to none.
fn inserted(tree: Tree, path: &RepoPath, node: Node) -> Result<Tree, NoMemory>
    requires { IsNode node }
    ensures made { IfOk result (λ made. made ≡ map.insert tree path.now node) }
    ensures free { IfOk result (λ _. map.get tree path.now ≡ None) }
{
    let mut tree = tree;
    match tree.insert(path, node) {
        Ok(()) => Ok(tree),
        Err(_) => Err(NoMemory),
    }
}

impl Found {
    /// The folder itself, and nothing in it.
    #[tactic(auto, using(crate::proofs::Objects::nothing_added))]
    pub(crate) fn new(alloc: Global) -> Result<Found, NoMemory>
        ensures { IfOk result (λ made. made ≡ record { nodes = single (Dir root_attr); objects = []; sum = 0 }) }
    {
        Ok(Found {
            tree: Tree::new(alloc, Attr::new_directory(0))?,
            contents: Contents::new(alloc),
            sum: 0,
        })
    }

    /// How many bytes all files have, those of whiteouts too.
    pub(crate) fn sum(&self) -> u64
        ensures value { result ≡ self.now.sum }
        ensures limit { result ≤ SUM_LIMIT }
    {
        self.sum
    }

    /// One directory or link more.
    pub(crate) fn with_node(self, path: &RepoPath, node: Node) -> Result<Found, NoMemory>
        requires limits { IsNode node }
        requires other { is_file (Some node) ≡ false }
        ensures { IfOk result (λ made. made ≡ with_node self path.now node) }
    {
        let Found {
            tree,
            contents,
            sum,
        } = self;
        let tree = inserted(tree, path, node)?;
        Ok(Found {
            tree,
            contents,
            sum,
        })
    }

    /// One file more, of which the id is given. The content of a whiteout is not kept.
    #[tactic(auto, using(crate::proofs::Objects::file_added))]
    pub(crate) fn with_file(
        self,
        path: &RepoPath,
        attr: Attr,
        object: Object,
    ) -> Result<Found, NoMemory>
        requires attr { IsAttr attr }
        requires named { object.id ≡ object_id (sha1 object.bytes) Plain }
        requires size { length object.bytes ≤ OBJECT_LIMIT }
        requires sum { self.sum + length object.bytes ≤ SUM_LIMIT }
        ensures { IfOk result (λ made. made ≡ with_file self path.now attr object.bytes) }
    {
        let Found {
            tree,
            contents,
            sum,
        } = self;
        let size = object.bytes.as_slice().len() as u64;
        let hash = object.id.hash;
        let content = FileRef { hash, size };
        let tree = inserted(tree, path, Node::File(attr, content))?;
        let contents = with_content(contents, path, object)?;
        Ok(Found {
            tree,
            contents,
            sum: sum + size,
        })
    }

    /// The changes that this is.
    pub(crate) fn into_changes(self) -> Changes
        ensures nodes { result.nodes ≡ self.nodes }
        ensures objects { result.objects ≡ self.objects }
        ensures contents { AreContents result.nodes result.objects }
    {
        let Found { tree, contents, .. } = self;
        Changes {
            tree,
            objects: contents.into_objects(),
        }
    }
}

/// The contents with that of one file more, unless it is a whiteout.
fn with_content(contents: Contents, path: &RepoPath, object: Object) -> Result<Contents, NoMemory>
    requires { object.id ≡ object_id (sha1 object.bytes) Plain }
    ensures { IfOk result (λ made. made ≡ kept_content contents path.now object.bytes) }
{
    if is_whiteout(path.last_name()) {
        return Ok(contents);
    }
    contents.with(object)
}
