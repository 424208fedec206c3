// Why a loom did not start: what each reason means by demand 3's reading, and that it is what the head did. The theorem is `diagnoses`, stated in
// specs/; there is no code here.
#![tactic(auto)]
