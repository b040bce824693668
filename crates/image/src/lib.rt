// No code: the bytes of a table, what they mean, and the laws of reading, searching and adding.
#![tactic(auto)]
