// Request #112, the erase count with cuts: what is counted, and the statement, in specs/. There is no code here.
#![tactic(auto)]
