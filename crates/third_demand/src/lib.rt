// The third demand of the mission as one theorem over the contracts of the compiler and of the examiner: `third-demand` of proofs/ThirdDemand. There
// is no code. It rests on `compiler`, `examiner` and `laws`.
#![tactic(auto)]
