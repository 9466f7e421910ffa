use crate::fact::Fact;
use crate::table::Values;
use ale_signature::TypeId;

/// The facts so far, the class and the type of each node, and the values of each class.
#[derive(Drop)]
pub(crate) struct Draft {
    pub(crate) facts: Vec<Fact>,
    pub(crate) class: Vec<usize>,
    pub(crate) types: Vec<TypeId>,
    pub(crate) values: Vec<Values>,
}
