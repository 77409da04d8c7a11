//! What the text of a pair says.

ghost use Rattle.std.specs.Prelude.{◌≡◌, length, slice_get};
ghost use Rattle.std.specs.Option.{option_copied};

use rad_value::Value;
use rad_words::AttrId;
use std::marker::Model;

/// The operators of pairs, as users(5) has them.
#[derive(Clone, Copy, Debug, PartialEq, Eq)]
pub enum PairOp {
    /// `=`
    Eq,
    /// `:=`
    Set,
    /// `+=`
    Append,
    /// `==`
    Equal,
    /// `!=`
    Differs,
    /// `<`
    Lt,
    /// `<=`
    Le,
    /// `>`
    Gt,
    /// `>=`
    Ge,
    /// `=~`
    Match,
    /// `!~`
    NoMatch,
    /// `=*`
    Any,
    /// `!*`
    None,
}

/// A pair that was read: the attribute, the operator and the value. The pattern of `Match` and `NoMatch` is a
/// text, whatever the attribute's kind; the value of `Any` and `None` is the empty text.
#[derive(Debug, Drop)]
pub struct Item {
    pub attr: AttrId,
    pub op: PairOp,
    pub value: Value,
}

/// A list of items, in reading order.
#[derive(Debug, Drop)]
pub struct ItemList {
    items: Vec<Item>,
}

impl Model for ItemList {
    ghost use Rattle.std.specs.Prelude.{List};
    ghost use Rattle.rad_pairs.specs.declared.items.Item.{Item};

    ghost Value = { List Item };

    ghost view = { λ l. l.items.items };
}

impl ItemList {
    /// The list of a vector's items, which takes no memory.
    pub fn from_vec(items: Vec<Item>) -> ItemList
        ensures { result ≡ items.items }
    {
        ItemList { items }
    }

    /// The vector of the list's items, which takes no memory.
    pub fn into_vec(self) -> Vec<Item>
        ensures { result.items ≡ self }
    {
        let ItemList { items } = self;
        items
    }

    /// How many items the list has.
    pub fn len(&self) -> usize
        ensures { result ≡ length self.now }
    {
        self.items.len()
    }

    /// The item of this index, counted from 0.
    pub fn get(&self, index: usize) -> Option<&Item>
        ensures { option_copied result ≡ slice_get self.now index }
    {
        self.items.get(index)
    }
}
