use ale_text::{Row, Text};

/// A written declaration of the type signature, by names.
#[derive(Debug, Drop)]
pub enum SigDecl {
    /// `name sub subs intro intros`: the types directly below `name`, and the features that it
    /// introduces, each with the restriction on its value. Either list may be empty.
    Kind {
        name: Text,
        subs: Row<Text>,
        intros: Row<(Text, Text)>,
    },
    /// `ext(names)`: types whose nodes are identified where all their values are the same.
    Ext {
        names: Row<Text>,
    },
}

/// That a type mentions a feature, with a restriction on its value. All three are numbers.
#[derive(Clone, Copy, Debug, PartialEq, Eq)]
pub struct Mention {
    pub at: usize,
    pub feature: usize,
    pub restriction: usize,
}
