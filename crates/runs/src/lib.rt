// Replays computed from the definition: inputs beside their whole outputs; no code.
#![tactic(auto)]
