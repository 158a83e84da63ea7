#![tactic(auto)]

// No code: facts of the remainder of `rules`, in specs/.
