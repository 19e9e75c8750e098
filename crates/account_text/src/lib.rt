// The text of an account of an image (request #101), and of a picture of it. Both stand in specs/; there is no code here.
#![tactic(auto)]
