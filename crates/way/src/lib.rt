// No code: what the steps of a swap and of a revert leave, cut anywhere. proofs/ has the laws, which `power` cites.

#![tactic(auto)]
