// What the auditor asks next: statements over every run, beyond the three answers. There is no code here: specs/ has the statements, and
// specs/Lib.antt lists the files in reading order.
#![tactic(auto)]
