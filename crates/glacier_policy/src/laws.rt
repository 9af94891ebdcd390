// Laws of what a text is as a policy, which no code calls.
ghost use Rattle.std.specs.Prelude.{ℕ, List};
ghost use Rattle.glacier_policy.specs.Faults.{IsAnswerTo};
ghost use Rattle.glacier_policy.specs.Policies.{policy_of};

/// A text is a policy where it has the form and no fault, and else its answer is its first fault.
pub fn the_first_fault_is_told()
    ensures { (text : List ℕ) → IsAnswerTo text (policy_of text) }
{}
