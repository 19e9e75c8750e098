// What histories of writes to a board with the older partition format come to (request #109). The statements
// stand in specs/, their proofs in proofs/. There is no code here.
#![tactic(auto)]
