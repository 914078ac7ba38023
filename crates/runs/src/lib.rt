#![tactic(auto)]

// Computed runs: 01's examples, and for each promise a run that meets its hypotheses. No code; see specs.
