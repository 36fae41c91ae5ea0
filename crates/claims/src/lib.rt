// The page of claims, and no code: proofs/Claims.antt states each claim of the project in its final form.
#![tactic(auto)]
