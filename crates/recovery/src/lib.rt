// What a master is told of its grants and losses, and how it gets the bus back from one that hangs. There is no code here: specs/ has the
// statements, and specs/Lib.antt lists the files in reading order.
#![tactic(auto)]
