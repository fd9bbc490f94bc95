// What holds of the tables beside what their functions promise: laws and examples, no code.
#![tactic(auto)]
