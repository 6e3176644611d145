// How far one cost can move the span: definitions and laws, no code.

#![tactic(auto)]
