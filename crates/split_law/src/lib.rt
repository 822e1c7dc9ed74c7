// That the judge over two buffers answers as the judge on the two joined, and which lengths it refuses: the theorem in
// specs/, its proof in proofs/.
#![tactic(auto)]
