// The range of every field of a device over every run, and what is read of it. There is no code here: specs/ has the statements, and
// specs/Lib.antt lists the files in reading order.
#![tactic(auto)]
