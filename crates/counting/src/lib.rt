// U9: hits told from a list of reads alone, by counting: definitions and laws, no code.
#![tactic(auto)]
