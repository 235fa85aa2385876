//! The law of graphs.

ghost use Rattle.trace_graph.specs.GraphLaws.{NodesLaw, EdgesLaw, IntervalsLaw};
ghost use Rattle.trace_graph.specs.VersionLaws.{VersionsLaw, MadeLaw};
ghost use Rattle.trace_graph.specs.WellFormed.{WellFormedLaw, EndLaw};

/// A graph has the nodes of its links and no others, has an edge between two nodes if and only if a link
/// does, and the edge's interval contains the time of each of its links. So its row versions are those that
/// statements read, make or change, and an edge leads from a statement to each version that a statement
/// makes. The function has no body: its contract is the theorem.
pub fn graph_law()
    ensures nodes { NodesLaw }
    ensures edges { EdgesLaw }
    ensures intervals { IntervalsLaw }
    ensures versions { VersionsLaw }
    ensures made { MadeLaw }
{}

/// The graph of a valid trace of at most 10,000,000 steps is well formed, and its edges end by step
/// 10,000,000. The function has no body: its contract is the theorem.
pub fn well_formed_law()
    ensures formed { WellFormedLaw }
    ensures end { EndLaw }
{}
