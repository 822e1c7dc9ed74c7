// M-107, document 02: the run of whatever is made is legal and stays, and tabler and judge accept it. The theorem in
// specs/, its proof in proofs/.
#![tactic(auto)]
