// Request #112, the erase count with cuts, proved in specs/. There is no code here.
#![tactic(auto)]
