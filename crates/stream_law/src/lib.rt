// That streams are what they should be: the theorem in specs/, its proof in proofs/.
#![tactic(auto)]
