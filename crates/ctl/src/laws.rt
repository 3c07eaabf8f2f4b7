// The theorems of this crate, each the contract of a function that does nothing.
ghost use Rattle.ctl.specs.Exact.{
  LabelsAreMeaning,
  LevelsArePaths,
  FormulaOfNode,
  StrikeIsExact,
  StrikingNarrows,
  SensesAgree,
  JudgeIsExact,
  JudgeRefusesRightly,
  RankOrders,
  CheapestIsUnique,
};
ghost use Rattle.table.specs.Table.{Table};
ghost use Rattle.ctl.specs.Duals.{AreSpecialCases, Duals};

/// The labels that are computed are the meaning of the nodes over infinite paths.
pub fn labels_are_meaning()
    ensures { LabelsAreMeaning }
{}

/// The last level of a fixed-point kind is what the kind says of the fullpaths.
pub fn levels_are_paths()
    ensures { LevelsArePaths }
{}

/// The formula of a node is its operator on the formulas of its children.
pub fn formula_of_node()
    ensures { FormulaOfNode }
{}

/// F and G are special cases of U and V, and U is the dual of V.
pub fn kinds_are_related()
    ensures special_cases { AreSpecialCases }
    ensures duals { Duals }
{}

/// Striking strikes what is to be struck, and makes a narrow repair of a repair.
pub fn striking_narrows()
    ensures strikes { StrikeIsExact }
    ensures narrows { StrikingNarrows }
{}

/// A table has a repair in the one sense exactly when it has one in the other.
pub fn senses_agree()
    ensures { SensesAgree }
{}

/// The judge's tests accept exactly the narrow repairs, and each refusal says what fails.
pub fn judge_is_right()
    ensures exact { JudgeIsExact }
    ensures refused { JudgeRefusesRightly }
{}

/// Rank orders the lists of a table, and at most one repair is the cheapest, then first in rank.
pub fn cheapest_is_unique()
    ensures orders { (T : Table) → RankOrders T }
    ensures unique { CheapestIsUnique }
{}
