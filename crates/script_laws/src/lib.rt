// What is proved of the line language; no code.
#![tactic(auto)]
