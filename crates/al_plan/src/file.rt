use crate::plan::Plan;
use al_csv::Decl;
use al_value::List;

/// Where an operator stands in a plan: the way from the root, by the numbers of children from 0.
/// A group or subplan has its nested plan as child 0 and its input as child 1; of two inputs the
/// left one is child 0.
#[derive(Debug, PartialEq, Eq, Drop)]
pub struct Place {
    pub children: List<u32>,
}

/// A plan file as it was read. Places are counted in bytes from the start of its text.
#[derive(Debug, PartialEq, Drop)]
pub struct PlanFile {
    pub version: u32,
    pub datasets: List<Decl>,
    /// Where each dataset's parenthesis opens, in the order of `datasets`.
    pub dataset_places: List<u32>,
    pub root: Plan,
    /// Where each operator's parenthesis opens: an operator before what stands in it, and of two
    /// plans in it the one that is written first.
    pub places: List<u32>,
}

/// What is wrong with a plan file.
#[derive(Clone, Copy, Debug, PartialEq, Eq)]
pub enum RefusedKind {
    /// There is no such file.
    Absent,
    /// The text is not UTF-8.
    Utf8,
    /// A piece of the text is no token.
    Token,
    /// A token can't stand there, or the text ends too early.
    Form,
    /// A number is outside its range, or a version is unknown.
    Number,
    /// More than 100 parentheses are open.
    TooDeep,
    /// The text has more than 1,048,576 bytes, or the plan more than 256 operators.
    TooLarge,
    /// A scan is of a dataset that isn't declared.
    UnknownDataset,
    /// A scan has another number of variables than its dataset has columns, or a function another
    /// number of arguments than it takes.
    WrongArity,
    /// An operator stands in a nested plan, or outside one, where it may not.
    NotInNested,
    /// The three lists of a union differ in length.
    UnionArity,
    /// A dataset is declared twice, or a variable is made or listed twice.
    TwiceMade,
    /// A variable is used where it isn't live.
    NotLive,
    /// A dataset has more than 64 columns, or an operator more than 64 live variables.
    TooWide,
}

/// A plan file that is refused, with the place in bytes from the start of its text.
#[derive(Clone, Copy, Debug, PartialEq, Eq)]
pub struct Refused {
    pub kind: RefusedKind,
    pub place: u32,
}
