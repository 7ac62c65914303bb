// The longest wait that the bus share report counts, held against the worst wait that is proved. There is no code here: specs/ has the
// statements, and specs/Lib.antt lists the files in reading order.
#![tactic(auto)]
