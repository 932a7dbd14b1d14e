// Demand 3 of the papers and the tallies, said of the exported functions: traces of their calls. The
// statement is specs/Statement.antt and the theorem proofs/Theorem.antt; no code is here.
#![tactic(auto)]
