//! The mode `migrate`: from a graph text to the text of the same graph in the version that is written.

ghost use Rattle.guppy_call.specs.Call.{Answer};
ghost use Rattle.guppy_call.specs.Made.{Makes, RefusesInput};
ghost use Rattle.guppy_call.specs.Migration.{IsDueMigration};

use crate::mode_error::ModeError;
use crate::validity::valid_graph;
use hg_json::write;
use std::alloc::Global;

/// Makes the line that has the text of a text's graph.
pub fn migrate_text(alloc: Global, text: &[u8]) -> Result<Vec<u8>, ModeError>
    ensures due { (answer : Answer) → IsDueMigration text.now answer → Makes result answer }
    ensures status { RefusesInput result }
{
    let graph = match valid_graph(alloc, text) {
        Ok(graph) => graph,
        Err(error) => return Err(error),
    };
    let mut line = write(alloc, graph.graph())?;
    line.push(b'\n')?;
    Ok(line)
}
