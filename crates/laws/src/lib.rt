// Laws of the documents' definitions, in folders by the sections of docs/PROOF.md: what the calls' rows say, the transform, forms and their masks,
// the value of what the cleanup builds, size and cost, reading back, and acceptance. There is no code; proofs above cite these. It rests on
// `rules`.
#![tactic(auto)]
