// The cases that document 01 marks * are rows of one list, in specs/Cases.antt; proofs/Cases.antt has the one theorem that
// every row holds. There is no code here.
#![tactic(auto)]
