//! What is true of the definitions, whatever code there is. Each function here does nothing: its contract is the law.
ghost use Rattle.std.specs.Prelude.{◌≡◌, true, List};
ghost use Rattle.std.specs.List.{list_all};
ghost use Rattle.ft_base.specs.declared.row.Value.{Value};
ghost use Rattle.agg_pipeline.specs.declared.step.Step.{Step};
ghost use Rattle.agg_pipeline.specs.Equal.{fits, value_eq, values_eq};
ghost use Rattle.agg_pipeline.specs.OneByOne.{MakeEachRow, MakeOneRow};
ghost use Rattle.agg_pipeline.specs.Stream.{AreOfRows};

/// Two values are equal exactly where the test of their spellings says so, and so are two lists of values: for all
/// values whose numbers and lengths have 64 bits, as those of each value that there is.
pub fn equal_values()
    ensures one { (v w : Value) → fits v ≡ true → fits w ≡ true → value_eq v w ≡ true → v ≡ w }
    ensures itself { (v : Value) → value_eq v v ≡ true }
    ensures several { (vs : List Value) (ws : List Value) → list_all fits vs ≡ true → list_all fits ws ≡ true
        → values_eq vs ws ≡ true → vs ≡ ws }
    ensures themselves { (vs : List Value) → values_eq vs vs ≡ true }
{}

/// Steps that take a row at a time make at most one row of a document. Of documents they make the rows of each, one after
/// another, so whoever takes them one by one has the rows of all.
pub fn rows_one_by_one()
    ensures one { (steps : List Step) → AreOfRows steps → MakeOneRow steps }
    ensures all { (steps : List Step) → AreOfRows steps → MakeEachRow steps }
{}
