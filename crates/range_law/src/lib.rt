// That range checks bound what they check, and that the finder finds them all: the theorem in specs/, its proof in
// proofs/.
#![tactic(auto)]
