//! The laws of graph text: functions without parameters, whose contracts are the laws.

ghost use Rattle.std.specs.Prelude.{◌≡◌, ◌<◌, ◌^◌, ℕ, List, length, Ok};
ghost use Rattle.hg_graph.specs.Graph.{Graph};
ghost use Rattle.hg_json.specs.GraphText.{json};
ghost use Rattle.hg_json.specs.InHand.{AreSpelled, IsInHand};
ghost use Rattle.hg_json.specs.Reading.{graph_of};

/// What is written for a graph is read as that graph, with the same nodes and the same links. Each Sum in its types has to
/// have a row, and in no type's text may more than 100 brackets be open at once.
pub fn written_graphs_read_back()
    ensures { (g : Graph) → IsInHand g → AreSpelled g → graph_of (json g) ≡ Ok g }
{}

/// Whatever text a graph was read from, all is in hand that its writing needs: there is a node, parents and links name nodes,
/// numbers have 64 bits, names and tags are UTF-8, and each type has a text. Only the number of nodes is left to the premise.
#[tactic(auto, using(crate::proofs::ReadGraphs::read_graphs_are_spelled))]
pub fn read_graphs_are_spelled()
    ensures { (bytes : List ℕ) (g : Graph) → graph_of bytes ≡ Ok g → length g.nodes < 2 ^ 64
        → IsInHand g × AreSpelled g }
{}

/// What is written for a graph that was read is read as that graph again, whatever text it was read from.
#[tactic(auto, using(crate::proofs::ReadGraphs::texts_are_written_anew))]
pub fn texts_are_written_anew()
    ensures { (bytes : List ℕ) (g : Graph) → graph_of bytes ≡ Ok g → length g.nodes < 2 ^ 64
        → graph_of (json g) ≡ Ok g }
{}
