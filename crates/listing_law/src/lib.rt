// What a text means as a listing, and that it means one thing: the theorem in specs/, its proof in proofs/.
#![tactic(auto)]
