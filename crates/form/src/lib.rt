// Forms as trees of fields: the crate holds definitions and laws only, and no code.
#![tactic(auto)]
