// What a replay is: specs/ defines it on the whole input by the decoder's own calls, and proofs/ has the laws, first that the
// listing of `replay_listing` is that. No function.
#![tactic(auto)]
