#![tactic(auto)]

// No code: the crate holds document 02's W11 as definitions, in specs/.
