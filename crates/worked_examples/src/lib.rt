// No code: the worked examples of the rules, and the theorem that the definitions give their answers.
#![tactic(auto)]
