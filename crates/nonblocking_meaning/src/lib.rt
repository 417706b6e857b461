// The meaning of the non-blocking driver's calls, in specs/, and two theorems over it, in proofs/: no stale byte (Theorem), and no answer 12 on a link that
// calls leave (NeverImpossible).
// It has no code: `nonblocking` hands the promise on.
#![tactic(auto)]
