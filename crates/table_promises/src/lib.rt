// What columns and tables promise over several calls, stated in specs/ and proved in proofs/. There is no code here.
#![tactic(auto)]
