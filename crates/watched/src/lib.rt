// Which parameters decide whether a row keeps its criteria.
#![tactic(auto)]

ghost use Rattle.std.specs.Prelude.{◌+◌};
