// The proved examples of document 01: the list is in specs/, its one proof in proofs/.
#![tactic(auto)]
