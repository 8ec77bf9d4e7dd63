// Calls one after the other, of whatever keeps a state from call to call. No function: specs/ says what they leave and reply, and
// proofs/ has the laws.
#![tactic(auto)]
