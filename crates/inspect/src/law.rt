//! The law of reports on the nodes that a path depends on.

ghost use Rattle.inspect.specs.DependsSources.{SourcesLaw};

use reach::reach_law;

/// `depends_text` lists exactly the nodes from which a chain of one or more edges leads to the path's node.
/// Each edge must have a time within its interval such that the times never fall and the last is at most the
/// time of the report. The function does nothing: its contract is the theorem.
pub fn depends_law()
    ensures { SourcesLaw }
{
    reach_law();
}
