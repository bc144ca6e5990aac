// What is written out of a plan that has nothing to write out.
ghost use Rattle.std.specs.Prelude.{◌≡◌, true};
ghost use Rattle.toml.specs.Data.{Members};
ghost use Rattle.plan_patterns.specs.Expanded.{expanded, is_written_out};

/// A plan without patterns, counts and ways stays as it is.
pub fn plans_of_today_stay()
    ensures { (text : Members) → is_written_out text ≡ true → expanded text ≡ text }
{}
