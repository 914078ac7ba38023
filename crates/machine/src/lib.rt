#![tactic(auto)]

// Definitions in specs/, what is proved of them in proofs/. No code.
