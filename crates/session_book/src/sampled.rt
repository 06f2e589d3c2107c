// Trees with references to the nodes of samples.
ghost use Rattle.std.specs.Prelude.{◌≡◌, ◌<◌, ◌^◌, [], ◌∷◌, ◌++◌, List, length, map, IfOk, OnOk, if◌then◌else◌};
ghost use Rattle.std.specs.List.{All, AllZip};
ghost use Rattle.code_event.specs.DeoptReasons.{no_reasons};
ghost use Rattle.code_event.specs.Tree.{nodes, id_of, fin_nodes};
ghost use Rattle.code_event.specs.declared.path.PathStep.{PathStep};
ghost use Rattle.code_event.specs.declared.visit.Visit.{Visit};
ghost use Rattle.profile_tree.specs.Grown.{StandsFor as IsTreeOf, Names};

use code_event::{FinNode, PathStep};
use prof_base::{Memory, Sequence};
use profile_tree::{NodeRef, Tree};
use std::alloc::Global;
use std::marker::Model;

/// The tree of a session's kept ticks, and the nodes of those that it lists as samples.
#[derive(Drop)]
pub(crate) struct Sampled {
    tree: Tree,
    samples: Sequence<NodeRef>,
}

impl Model for Sampled {
    ghost use Rattle.std.specs.List.{All};
    ghost use Rattle.profile_tree.specs.Grown.{NamesSome};
    ghost use Rattle.session_book.specs.Sampled.{SampledParts};

    ghost Value = { SampledParts };

    ghost view = { λ s. record { tree = s.tree; samples = s.samples } };

    ghost invariant = { λ s. All (NamesSome s.tree) s.samples };
}

impl Sampled {
    /// Makes the tree of no ticks.
    pub(crate) fn new(alloc: Global) -> Result<Sampled, Memory>
        ensures tree { IfOk result (λ sampled. IsTreeOf sampled.tree []) }
        ensures samples { IfOk result (λ sampled. sampled.samples ≡ []) }
    {
        Ok(Sampled {
            tree: Tree::new(alloc)?,
            samples: Sequence::new(alloc),
        })
    }

    /// Returns the number of samples.
    pub(crate) fn len(&self) -> usize
        ensures { result ≡ length self.now.samples }
    {
        self.samples.len()
    }

    /// Adds a tick to the tree, and lists it if asked. Out of memory, nothing is said of the tree, and
    /// no sample is left.
    pub(crate) fn add(
        &mut self,
        path: &[PathStep],
        line: u32,
        hit: bool,
        listed: bool,
    ) -> Result<(), Memory>
        ensures tree { OnOk result ((visits : List Visit) → IsTreeOf self.old.tree visits
            → IsTreeOf self.new.tree (visits ++ record { path = path.now; line = line; hit = hit } ∷ [])) }
        ensures samples { OnOk result ((paths : List (List PathStep)) → AllZip (Names self.old.tree) self.old.samples paths
            → AllZip (Names self.new.tree) self.new.samples (if listed then paths ++ path.now ∷ [] else paths)) }
    {
        match self.tree.add(path, line, hit) {
            Ok(reference) => {
                if listed {
                    self.samples.push(reference)?;
                }
                Ok(())
            }
            Err(Memory) => {
                self.samples = Sequence::new(self.samples.allocator());
                Err(Memory)
            }
        }
    }

    /// Returns the nodes in the order of their paths, and the ids of the samples' nodes.
    pub(crate) fn finished(&self) -> Result<(Sequence<FinNode>, Sequence<u32>), Memory>
        ensures few_hits { IfOk result (λ finished. All (λ node. node.hits < 2 ^ 53) finished.0) }
        ensures nodes { IfOk result (λ finished. (visits : List Visit) → IsTreeOf self.now.tree visits
            → finished.0 ≡ fin_nodes visits no_reasons) }
        ensures samples { IfOk result (λ finished. (visits : List Visit) (paths : List (List PathStep)) → IsTreeOf self.now.tree visits
            → AllZip (Names self.now.tree) self.now.samples paths → finished.1 ≡ map (id_of (nodes visits)) paths) }
    {
        self.tree.finished(self.samples.as_slice())
    }
}
