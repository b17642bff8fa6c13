//! A stage that waits for its build.

use edits_between::Differences;
use good_phases::GoodPhases;
use switch_paths::Graph;
use ternary::Tern;
use unit_step::Machine;

/// What a stage holds on to of its last run: the record of the good run, and the machine of the last run's graph.
#[derive(Drop)]
pub(crate) struct LastRun {
    pub(crate) machine: Option<Machine>,
    // Whether the machine covers the graph: not after an edit that lacked memory.
    pub(crate) covered: bool,
    pub(crate) graph: Graph,
    pub(crate) good: GoodPhases,
    // Where the graph differs from the good run's, if the machine covers it.
    pub(crate) apart: Differences,
}

/// The state of each node, and what there is of the last run; if there was none, the next one is recorded.
#[derive(Drop)]
pub(crate) struct Waiting {
    pub(crate) state: Vec<Tern>,
    pub(crate) last_run: Option<LastRun>,
}
