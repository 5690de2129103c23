//! Theorems: what a history of all nodes says of each node by itself, and of all of them.
ghost use Rattle.cops_gate.specs.Filtered.{TurnsAreOfOneNode, OtherNodesAreSeen, LackingIsOfOneNode};
ghost use Rattle.cops_gate.specs.Running.{WholeHistoriesRun, RunsLeadEachNode, TurnsEndARun};

use cops_types::Machine;

/// Theorem: a turn at a node extends that node's own history, as a gate of its own would show it. At other nodes the seat
/// sees what others did there, and no turn of its own.
pub fn histories_are_of_each_node<M: Machine>()
    ensures here { TurnsAreOfOneNode M.turns }
    ensures elsewhere { OtherNodesAreSeen M.turns }
    ensures lacking { LackingIsOfOneNode M.turns M.may_lack }
{}

/// Theorem: what a seat has seen is a run of the cluster as one machine, each turn of which changes one node. A run leaves
/// at each node what the turns there leave.
pub fn histories_are_runs_of_the_cluster<M: Machine>()
    ensures run { WholeHistoriesRun M.turns }
    ensures each { RunsLeadEachNode M.turns }
    ensures turn { TurnsEndARun M.turns }
{}
