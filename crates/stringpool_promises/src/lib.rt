// What the string pool promises over many calls, stated in specs/ and proved in proofs/. There is no code here.
#![tactic(auto)]
