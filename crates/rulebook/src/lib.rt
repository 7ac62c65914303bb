// The rule book's scripts (docs/RULES.md, traces/rules/) with the answers that the definitions give them, as one table. There is no code here:
// specs/ has the table and its statement, and specs/Lib.antt lists the files in reading order.
#![tactic(auto)]
