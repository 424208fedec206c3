// The whole session: what the calls of `loader` do one after another. The theorem is `verified_boot`, stated in specs/; there is no code here.
#![tactic(auto)]
