// What is right, and no code: specs/ has the definitions of every answer, proofs/ what is proved of them.
#![tactic(auto)]
