// What holds of the rule.
ghost use Rattle.std.specs.Prelude.{◌≡◌, ℕ};
ghost use Rattle.rail_model.specs.Table.{Table};
ghost use Rattle.cert_maker.specs.declared.made.Made.{Made as Answer};
ghost use Rattle.cert_maker.specs.Rule.{Makes};
ghost use Rattle.cert_maker.specs.Claims.{RuleIsUnique};
ghost use Rattle.cert_maker.specs.Renumber.{SlackKeepsTheRule};

/// A table and a budget have exactly one answer, and a box has one tree of the rule.
pub fn each_budget_has_one_answer()
    ensures some { (T : Table) (budget : ℕ) → (m : Answer) × Makes T budget m }
    ensures one { (T : Table) (budget : ℕ) (m n : Answer) → Makes T budget m → Makes T budget n → m ≡ n }
    ensures tree { RuleIsUnique }
{}

/// Where two tables differ by sections that are slack in a box, and nothing else, the rule writes the same tree of the box
/// for both, with the sections' new numbers.
pub fn slack_keeps_the_rule()
    ensures { SlackKeepsTheRule }
{}
