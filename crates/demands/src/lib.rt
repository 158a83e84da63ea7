#![tactic(auto)]

// No code: statements in specs/.
