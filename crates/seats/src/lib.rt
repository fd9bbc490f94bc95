// U7: what the desk sees does not depend on seat numbers: definitions and laws, no code.
#![tactic(auto)]
