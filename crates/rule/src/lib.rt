// No code: the rule that a table and its cursors follow, and its laws.
#![tactic(auto)]
