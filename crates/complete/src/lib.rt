// Any two answers that a contract allows are equal: proofs/Answers.antt has a law for each public function of the other libraries.
// There is no code here. What `holmweder_c` exports promises what `holmweder` does, word for word, so the laws of that are its too.

#![tactic(auto)]
