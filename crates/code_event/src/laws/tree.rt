// What holds of every tree.
ghost use Rattle.std.specs.Prelude.{◌≡◌, ◌+◌, ◌-◌, ◌<◌, ◌≤◌, ◌≢◌, ◌⊎◌, ◌↔◌, List, [], length, map, count_by, flat_map, Some, IsTrue, IsPermutation};
ghost use Rattle.std.specs.List.{All, Contains, slice_get, sum_by};
ghost use Rattle.code_event.specs.DeoptReasons.{DeoptReasons};
ghost use Rattle.code_event.specs.Tree.{nodes, id_of, is_below, hits, hits_at, line_ticks, fin_nodes};
ghost use Rattle.code_event.specs.Profile.{samples};
ghost use Rattle.code_event.specs.TreeLaws.{BeginsSome, HasOneParent};
ghost use Rattle.prof_base.specs.Ordered.{numbers_from};
ghost use Rattle.code_event.specs.declared.path.PathStep.{PathStep};
ghost use Rattle.code_event.specs.declared.visit.Visit.{Visit};

/// The ids of a tree's nodes, in their order, are 1, 2 and so on: each number up to the number of
/// nodes is the id of exactly one.
pub fn ids_number_the_nodes()
    ensures { (visits : List Visit) → map (id_of (nodes visits)) (nodes visits) ≡ numbers_from 1 (length (nodes visits)) }
{}

/// A node has a smaller id than those directly below it.
pub fn parents_come_first()
    ensures { (visits : List Visit) (parent node : List PathStep) → Contains (nodes visits) parent → IsTrue (is_below parent node) → id_of (nodes visits) parent < id_of (nodes visits) node }
{}

/// The nodes of a tree are the empty path and all paths with which the path of a tick begins, and
/// no others.
pub fn nodes_begin_the_paths()
    ensures { (visits : List Visit) (node : List PathStep) → Contains (nodes visits) node ↔ ((node ≡ []) ⊎ BeginsSome node visits) }
{}

/// The first node of a tree is the root.
pub fn the_root_comes_first()
    ensures { (visits : List Visit) → slice_get (nodes visits) 0 ≡ Some [] }
{}

/// Each sample is the id of a node.
pub fn each_sample_is_a_node()
    ensures { (visits : List Visit) → All (λ id. (1 ≤ id) × (id ≤ length (nodes visits))) (samples visits) }
{}

/// The nodes are one tree: each but the empty path has exactly one node directly above it.
pub fn every_node_but_the_root_has_a_parent()
    ensures { (visits : List Visit) (node : List PathStep) → Contains (nodes visits) node → node ≢ [] → HasOneParent (nodes visits) node }
{}

/// Each hit is counted at exactly one node.
pub fn each_hit_is_of_one_node()
    ensures { (visits : List Visit) (reasons : DeoptReasons) → sum_by (λ node. node.hits) (fin_nodes visits reasons) ≡ count_by (λ visit. visit.hit) visits }
{}

/// Each hit of a node is counted at exactly one line, except those at no line. So the ticks of its
/// lines add up to no more than its hits.
pub fn each_hit_is_at_one_line()
    ensures within { (visits : List Visit) (node : List PathStep) → sum_by (λ line. line.ticks) (line_ticks visits node) ≤ hits visits node }
    ensures exact { (visits : List Visit) (node : List PathStep) → sum_by (λ line. line.ticks) (line_ticks visits node) + hits_at visits node 0 ≡ hits visits node }
{}

/// Each id but the root's, which is 1, is listed as a child exactly once.
pub fn each_node_but_the_root_is_one_child()
    ensures { (visits : List Visit) (reasons : DeoptReasons) → IsPermutation (flat_map (λ node. node.children) (fin_nodes visits reasons)) (numbers_from 2 (length (nodes visits) - 1)) }
{}
