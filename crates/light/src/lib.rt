// Settled devices (request #114): every device that a run reaches is one, and in one an event may end with its own effect (`traces::play`). There is no code
// here: specs/ has the definitions and statements.
#![tactic(auto)]
