// The laws of settling: when a decoder reports itself settled, and when it is back with others. No function:
// specs/ says what calls one after the other do, and proofs/ has the theorems.
#![tactic(auto)]
