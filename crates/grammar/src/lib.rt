// The grammar of rules: definitions in specs/ and laws in proofs/. There is no code.
#![tactic(auto)]
