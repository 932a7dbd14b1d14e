// Demand 3 of the papers: noninterference over whole sequences of calls. The statement is
// specs/Statement.antt and the theorem proofs/Theorem.antt; no code is here.
#![tactic(auto)]
