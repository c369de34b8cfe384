// What is guaranteed of every list of calls (01, demand 3): definitions and proofs about `machine`, and no code.
#![tactic(auto)]
