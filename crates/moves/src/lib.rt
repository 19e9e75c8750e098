// Moving to another chip, as definitions, and what they come to. They stand in specs/. There is no code here.
#![tactic(auto)]
