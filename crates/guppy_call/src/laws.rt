//! Laws of the answers: functions without parameters, whose contracts are the laws.

ghost use Rattle.std.specs.Prelude.{◌≡◌, ◌<◌, ◌^◌, ℕ, List, length, Ok};
ghost use Rattle.hg_graph.specs.Graph.{Graph};
ghost use Rattle.hg_json.specs.GraphText.{json};
ghost use Rattle.hg_json.specs.Reading.{graph_of};
ghost use Rattle.guppy_call.specs.GraphTexts.{IsGraphText};
ghost use Rattle.guppy_call.specs.OneAnswer.{TextsHaveOneAnswer, GraphTextsHaveOneValidity, GraphTextsHaveOneMigration, GraphTextsHaveOneRun};

/// Each source text has exactly one of its five forms, and exactly one answer of `compile` is due for it.
#[tactic(auto, using(crate::proofs::OneAnswer::texts_have_one_answer))]
pub fn texts_have_one_answer()
    ensures { TextsHaveOneAnswer }
{}

/// Each graph text has exactly one of its four forms for `validate`, and exactly one answer of it is due.
#[tactic(auto, using(crate::proofs::ValidTexts::graph_texts_have_one_validity))]
pub fn graph_texts_have_one_validity()
    ensures { GraphTextsHaveOneValidity }
{}

/// Each graph text has exactly one of its four forms for `migrate`, and exactly one answer of it is due.
#[tactic(auto, using(crate::proofs::GraphModes::graph_texts_have_one_migration))]
pub fn graph_texts_have_one_migration()
    ensures { GraphTextsHaveOneMigration }
{}

/// Each graph text has exactly one of its six forms for `run`, and exactly one answer of it is due, whatever the options.
#[tactic(auto, using(crate::proofs::GraphModes::graph_texts_have_one_run))]
pub fn graph_texts_have_one_run()
    ensures { GraphTextsHaveOneRun }
{}

/// What `migrate` writes for the graph of a text is a text of the same graph.
#[tactic(auto, using(crate::proofs::ValidTexts::migrated_texts_read_back))]
pub fn migrated_texts_read_back()
    ensures { (text : List ℕ) (g : Graph) → IsGraphText text g → length g.nodes < 2 ^ 64
        → graph_of (json g) ≡ Ok g }
{}
