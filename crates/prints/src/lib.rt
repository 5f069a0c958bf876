// What a pass prints that meets no refusal: numbers that are stored one part after the other. No function stands here:
// `store` and `writer` are such passes, and proofs/Going.antt has their laws.
#![tactic(auto)]
