#![tactic(auto)]
// No code: the bit between three and five parcels changes form, length and operands' values in the decoder's answer, and
// nothing else.
