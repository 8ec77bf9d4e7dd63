// The laws of two ears: neither has anything of the other's, and each settles by itself. No function:
// specs/ says what calls of both ears do one after the other, and proofs/ has the theorems.
#![tactic(auto)]
