// Laws of finds that the finder stands on, and `range_law` too: proofs/, no function.
#![tactic(auto)]
