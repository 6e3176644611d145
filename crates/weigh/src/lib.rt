// What a cost line weighs where a caller asks for other weights: definitions and laws, no code.

#![tactic(auto)]
