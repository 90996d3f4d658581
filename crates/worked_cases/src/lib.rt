// Station K (K-1 to K-10 of docs/RULES.md) and the desks that ACCEPT-3 and requests turn down, worked through. There is
// no code here. The cases are stated in specs/Cases.antt, on the lists of specs/StationK.antt, the desks in
// specs/OtherDesks.antt; both are proved in proofs/.
#![tactic(auto)]
