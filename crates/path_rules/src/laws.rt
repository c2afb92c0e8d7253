//! Laws of the definitions: functions that do nothing, whose contracts are proved.
ghost use Rattle.std.specs.Prelude.{◌≡◌, ◌↔◌, ◌≢◌, [], ◌∷◌, Bool, List};
ghost use Rattle.std.specs.Borrow.{Bor};
ghost use Rattle.path_rules.specs.Path.{IsAnswer, IsPath};
ghost use Rattle.path_rules.specs.Machine.{Accepts};
ghost use Rattle.path_rules.specs.Policies.{Allows, Policy};
ghost use Rattle.path_rules.specs.PolicyGraph.{Everyone, IsNode};
ghost use Rattle.path_rules.specs.PolicyRules.{IsPolicyFault, PoliciesHold};
ghost use Rattle.path_rules.specs.PolicyTree.{IsTreeNode, RootIn, Way};
ghost use Rattle.path_rules.specs.declared.answer.Answer.{Answer as AnAnswer};
ghost use Rattle.path_rules.specs.declared.answer.Answer.TheVariants.{Valid as IsValid};
ghost use Rattle.path_rules.specs.declared.counters.Counters.{Counters as ACounters};
ghost use Rattle.path_rules.specs.declared.facts.Facts.{Facts as AFacts};
ghost use Rattle.path_rules.specs.declared.policy_facts.PolicyFacts.{PolicyFacts as APolicyFacts};
ghost use Rattle.path_rules.specs.declared.policy_fault.PolicyFault.{PolicyFault as APolicyFault};

// Each answer but `Valid` says that the path is not one.
#[allow(dead_code)]
fn refuses_rightly()
    ensures { (a : AnAnswer) (p : List AFacts) → IsAnswer a p → a ≢ IsValid → IsPath p → ⊥ }
{}

// The steps of RFC 5280, 6.1.2 to 6.1.5, with the variable max_path_length, accept exactly the paths.
#[allow(dead_code)]
fn steps_agree()
    ensures { (p : List AFacts) → Accepts p ↔ IsPath p }
{}

// The policy graph has a policy at a depth exactly if the valid_policy_tree of RFC 5280 has a node
// with it there.
#[allow(dead_code)]
fn tree_agrees()
    ensures { (start : ACounters) (last : Bool) (c : APolicyFacts) (before : List APolicyFacts)
        (p : Policy) → IsNode start Everyone last c before p
        ↔ ((way : Way) × IsTreeNode start last c before (p ∷ way) × RootIn Everyone (p ∷ way)) }
{}

// What grows from the policies that the user allows are the nodes that stay in the tree where it is
// intersected with the user-initial-policy-set.
#[allow(dead_code)]
fn allowed_tree_agrees()
    ensures { (start : ACounters) (allowed : List (Bor Policy)) (last : Bool) (c : APolicyFacts)
        (before : List APolicyFacts) (p : Policy)
        → IsNode start (Allows allowed) last c before p
        ↔ ((way : Way) × IsTreeNode start last c before (p ∷ way)
        × RootIn (Allows allowed) (p ∷ way)) }
{}

// Each answer on policies but `Valid` and `NoRoom` says that the policies do not hold.
#[allow(dead_code)]
fn refuses_policies_rightly()
    ensures fault { (start : ACounters) (allowed : List (Bor Policy)) (f : APolicyFault)
        (p : List APolicyFacts)
        → IsPolicyFault start allowed f p → PoliciesHold start allowed p → ⊥ }
    ensures empty { (start : ACounters) (allowed : List (Bor Policy)) (p : List APolicyFacts)
        → p ≡ [] → PoliciesHold start allowed p → ⊥ }
{}

// What grows from policies that the user allows is part of the whole graph.
#[allow(dead_code)]
fn is_part_of_graph()
    ensures { (start : ACounters) (allowed : List (Bor Policy)) (last : Bool) (c : APolicyFacts)
        (before : List APolicyFacts) (p : Policy)
        → IsNode start (Allows allowed) last c before p → IsNode start Everyone last c before p }
{}
