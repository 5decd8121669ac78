ghost use Rattle.al_data_cases.specs.FuncCases.{Choices, IntFunctions, Items, LogicOfThree, TextFunctions};
ghost use Rattle.al_data_cases.specs.FileCases.{FieldsOfKinds, RowsOfRecords};

/// What functions and generators give for a few values. It does nothing: its clauses are worked
/// cases.
pub fn func_cases()
    ensures ints { IntFunctions }
    ensures logic { LogicOfThree }
    ensures texts { TextFunctions }
    ensures choices { Choices }
    ensures items { Items }
{}

/// What the fields of a record hold, and the rows of a few records. It does nothing: its clauses
/// are worked cases.
pub fn file_cases()
    ensures fields { FieldsOfKinds }
    ensures rows { RowsOfRecords }
{}
