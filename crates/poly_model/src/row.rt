ghost use Rattle.std.specs.Prelude.{◌≡◌, List};
ghost use Rattle.std.specs.Cmp.Lexicographic.{pointwise, lists_per};

use std::marker::Model;

/// A list of items, which contracts see as that list.
#[derive(Debug, Drop)]
pub struct Row<T> {
    items: Vec<T>,
}

impl<T> Model for Row<T> {
    ghost use Rattle.std.specs.Prelude.{List};

    ghost Value = { List T };

    ghost view = { λ row. row.items.items };
}

impl<T: PartialEq> PartialEq for Row<T> {
    ghost eq = { pointwise T.eq };

    ghost laws = { lists_per T.laws };

    fn eq(&self, other: &Row<T>) -> bool {
        self.items == other.items
    }
}

impl<T> Row<T> {
    /// A row of the items, in their order.
    pub fn from_vec(items: Vec<T>) -> Row<T>
        ensures { result ≡ items.items }
    {
        Row { items }
    }

    /// The items, to look at.
    pub fn as_slice(&self) -> &[T]
        ensures { result.now ≡ self.now }
    {
        &self.items
    }

    /// The items, given back.
    pub fn into_vec(self) -> Vec<T>
        ensures { result.items ≡ self }
    {
        let Row { items } = self;
        items
    }
}
