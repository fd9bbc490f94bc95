// Steps that are blind to seats, and to which rows are dirty, the disk and the primary writes; and calls on lent memory as calls over a policy: definitions
// and laws, no code.
#![tactic(auto)]
