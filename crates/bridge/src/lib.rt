// What the steps of a finished request do to the image, seen as its view. Theorems in specs/; there is no code here.
#![tactic(auto)]
