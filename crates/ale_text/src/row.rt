ghost use Rattle.std.specs.Prelude.{◌≡◌, IfOk};

use std::alloc::{AllocError, Global};
use std::marker::Model;

/// A list of values that contracts see as the list itself.
#[derive(Debug, Drop)]
pub struct Row<T> {
    items: Vec<T>,
}

impl<T> Model for Row<T> {
    ghost use Rattle.std.specs.Prelude.{List};
    ghost use Rattle.std.specs.Coded.{coded_list};

    ghost Value = { List T };

    ghost coded = { coded_list T.code };

    ghost view = { λ r. r.items.items };
}

impl<T> Row<T> {
    /// The row of these items. It takes no memory.
    pub fn of(items: Vec<T>) -> Row<T>
        ensures { result ≡ items.items }
    {
        Row { items }
    }

    /// The items in order.
    pub fn as_slice(&self) -> &[T]
        ensures { result.now ≡ self.now }
    {
        self.items.as_slice()
    }

    /// The items, which may grow from then on.
    pub fn into_vec(self) -> Vec<T>
        ensures { result.items ≡ self }
    {
        let Row { items } = self;
        items
    }
}

impl<T: Clone> Row<T> {
    /// An equal row.
    pub fn copy(&self, alloc: Global) -> Result<Row<T>, AllocError>
        requires { (a b : T) → T.is_clone a b → b ≡ a }
        ensures { IfOk result (λ r. r ≡ self.now) }
    {
        Ok(Row {
            items: self.items.clone()?,
        })
    }
}
