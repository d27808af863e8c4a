// 01's listing and its starred cases, evaluated: demand 3 at the listing, and the table. There is no code here.
#![tactic(auto)]
