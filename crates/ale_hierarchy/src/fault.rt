/// What is wrong with declarations, by the numbers of the types and features that show it.
#[derive(Clone, Copy, Debug, PartialEq, Eq)]
pub enum Fault {
    /// There are too many types.
    TooManyTypes,
    /// There are too many features.
    TooManyFeatures,
    /// Subtyping leads from the type back to it.
    SubCycle(usize),
    /// The first two types have common subtypes and no least one; the others are most general ones.
    NoJoin(usize, usize, usize, usize),
    /// The two types both mention the feature, and no type that mentions it is above them.
    TwoIntros(usize, usize, usize),
    /// The restrictions that apply at the type to the feature have no join.
    ValueClash(usize, usize),
    /// Restrictions lead from the type back to it.
    Loop(usize),
    /// The type is extensional, and another is below it.
    ExtNotMaximal(usize),
    /// What fills the features of the type has too many nodes.
    FillTooLarge(usize),
}
