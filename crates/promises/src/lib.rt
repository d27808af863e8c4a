// What is promised of the public calls: demand 3 over the whole list of step calls, and the numbers of demand 1. Definitions and laws only;
// there is no code here.
#![tactic(auto)]
