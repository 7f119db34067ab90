// Document 01's starred edge examples: one table of the definitions with one theorem (specs/Examples.antt). There is no
// code here.
#![tactic(auto)]
