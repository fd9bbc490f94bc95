// U8: reads are as without the limit on dirty rows: definitions and laws, no code.
#![tactic(auto)]
