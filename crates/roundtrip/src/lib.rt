#![tactic(auto)]
// No code: the decoder's and the encoder's definitions are each other's inverse.
