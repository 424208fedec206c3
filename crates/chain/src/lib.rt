// Chains of resets and starts: what the CDI at the end of a chain is made from. The theorem is `chains`, stated in specs/; there is no code here.
#![tactic(auto)]
