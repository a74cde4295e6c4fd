//! Laws of what a dump means. Each function here has an empty body; its contract is the law.

ghost use Rattle.std.specs.Prelude.{◌≡◌, ◌↔◌, ℕ, List, All, Some, option_map, Ok, Err};
ghost use Rattle.serde_json.specs.Data.{Data};
ghost use Rattle.cmh_graph.specs.Build.{IsWellFormed};
ghost use Rattle.cmh_graph.specs.Graph.{Graph};
ghost use Rattle.cmh_dump.specs.declared.fault.DumpFault.{DumpFault};
ghost use Rattle.cmh_dump.specs.Dump.{dump, dump_of_tree, tree_graph, tree_of};
ghost use Rattle.cmh_dump.specs.FirstFault.{IsFirstIn, BytesHave, bytes_faults, TreeHas, tree_faults};

/// A tree is refused for a fault exactly where it is the first of the table that the tree has.
pub fn law_tree_fault()
    ensures { (d : Data) (fault : DumpFault) → (dump_of_tree d ≡ Err fault)
        ↔ IsFirstIn (tree_faults d) (TreeHas d) fault }
{}

/// A tree means a graph exactly where it has no fault, and then the one that its names say.
pub fn law_tree_graph()
    ensures { (d : Data) (g : Graph) → (dump_of_tree d ≡ Ok g)
        ↔ (All (λ fault. ¬ (TreeHas d fault)) (tree_faults d) × (g ≡ tree_graph d)) }
{}

/// Bytes are refused for a fault exactly where it is the first, in order, that the bytes have.
pub fn law_first_fault()
    ensures { (bytes : List ℕ) (fault : DumpFault) → (dump bytes ≡ Err fault)
        ↔ IsFirstIn (bytes_faults bytes) (BytesHave bytes) fault }
{}

/// Bytes mean a graph exactly where they have no fault, and then the one that their tree means.
pub fn law_no_fault()
    ensures { (bytes : List ℕ) (g : Graph) → (dump bytes ≡ Ok g)
        ↔ (All (λ fault. ¬ (BytesHave bytes fault)) (bytes_faults bytes)
        × (option_map tree_graph (tree_of bytes) ≡ Some g)) }
{}

/// The graph that bytes mean is well formed: the only fault of `WaitGraph::build_with` on it is out of memory.
pub fn law_well_formed()
    ensures { (bytes : List ℕ) (g : Graph) → dump bytes ≡ Ok g → IsWellFormed g }
{}
