ghost use Rattle.std.specs.Prelude.{◌≡◌, List};

use std::marker::Model;

/// A list of items that is not changed any more. It is what public types hold; contracts see the list.
#[derive(Clone, Debug, Drop)]
pub struct Row<T> {
    items: Vec<T>,
}

impl<T> Model for Row<T> {
    ghost Value = { List T };

    ghost view = { λ r. r.items.items };
}

impl<T> Row<T> {
    pub fn from_vec(items: Vec<T>) -> Row<T>
        ensures { result ≡ items.items }
    {
        Row { items }
    }

    pub fn as_slice(&self) -> &[T]
        ensures { result.now ≡ self.now }
    {
        self.items.as_slice()
    }

    pub fn into_vec(self) -> Vec<T>
        ensures { result.items ≡ self }
    {
        let Row { items } = self;
        items
    }
}

impl<T: PartialEq> PartialEq for Row<T> {
    ghost use Rattle.std.specs.Cmp.Lexicographic.{pointwise, lists_per};

    ghost eq = { λ x y. pointwise T.eq x y };

    ghost laws = { lists_per T.laws };

    fn eq(&self, other: &Self) -> bool {
        self.items == other.items
    }
}

impl<T: Eq> Eq for Row<T> {
    ghost use Rattle.std.specs.Cmp.Lexicographic.{lists_equiv};

    ghost laws = { lists_equiv T.Eq.laws };
}
