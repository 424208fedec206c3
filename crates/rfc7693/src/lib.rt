// BLAKE2s as RFC 7693 defines it, and what is proved of the definition; there is no code here.
#![tactic(auto)]
