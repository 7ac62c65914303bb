// What a complete pair of order sheets guarantees: how long a master waits at the most. There is no code here: specs/ has the statements, and
// specs/Lib.antt lists the files in reading order.
#![tactic(auto)]
