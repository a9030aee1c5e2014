// No code: the definitions that a reader must believe are in specs/, their laws in proofs/.
#![tactic(auto)]
