//! The law of reach.

ghost use Rattle.reach.specs.ReachLaws.{DependsLaw, TrailsLaw};

use trace_graph::graph_law;

/// If links lead from one node to another at times that never fall and are at most `t`, then a path of their
/// graph does so by `t`. So a graph with intervals loses nothing that the single events show; it may show
/// more. Repeated passes over the edges find the nodes from which such paths lead to a node, and no others.
/// The function does nothing: its contract is the theorem.
pub fn reach_law()
    ensures trails { TrailsLaw }
    ensures depends { DependsLaw }
{
    graph_law();
}
