// What a transfer costs in register accesses, exactly: the definition is in specs/, the theorems in proofs/.
#![tactic(auto)]
