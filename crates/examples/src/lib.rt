// One table of worked examples of the rules: problem bytes, judging, and sessions with every chooser.
#![tactic(auto)]

pub mod laws;
