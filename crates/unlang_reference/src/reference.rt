//! What a reference names.

ghost use Rattle.std.specs.Prelude.{◌≡◌, ◌++◌, IfOk, OnOk, length, slice_get};
ghost use Rattle.std.specs.Option.{option_copied, option_to_list};
ghost use Rattle.rad_value.specs.PairLists.{list_of};
ghost use Rattle.rad_value.specs.Pairs as pairs;
ghost use Rattle.unlang_reference.specs.Values.{values_of, text_of, joined, others};

use rad_dict::Dict;
use rad_outside::NoMemory;
use rad_pairs::{AttrKind, put_plain};
use rad_text::put_decimal;
use rad_value::{ListName, Lists, Pair, Value};
use rad_words::AttrId;
use std::alloc::Global;

/// Which of an attribute's values a reference means.
#[derive(Clone, Copy, Debug, PartialEq, Eq)]
pub enum Which {
    /// `[n]`: the value of this place, from 0.
    Nth(u32),
    /// `[*]`: all, in order.
    All,
    /// `[#]`: how many there are.
    Count,
}

/// A reference to values of an attribute in one of the three lists.
#[derive(Clone, Copy, Debug, PartialEq, Eq)]
pub struct Reference {
    pub list: ListName,
    pub attr: AttrKind,
    pub which: Which,
}

impl Reference {
    /// How many values the reference names.
    pub fn count(&self, lists: &Lists) -> u32
        ensures { result ≡ length (values_of self.now lists.now) }
    {
        match self.which {
            Which::Nth(n) => u32::from(lists.nth(self.list, self.attr.id, n).is_some()),
            Which::All => lists.count(self.list, self.attr.id),
            Which::Count => 1,
        }
    }

    /// Copies of the values that the reference names, in order. `[#]` names one number.
    pub fn values(&self, alloc: Global, lists: &Lists) -> Result<Vec<Value>, NoMemory>
        ensures { IfOk result (λ values. values.items ≡ values_of self.now lists.now) }
    {
        let mut values = Vec::new(alloc);
        match self.which {
            Which::Nth(n) => {
                push_copy(alloc, &mut values, lists.nth(self.list, self.attr.id, n))?;
            }
            Which::All => push_all(alloc, &mut values, lists, self.list, self.attr.id)?,
            Which::Count => {
                values.push(Value::Number(lists.count(self.list, self.attr.id)))?;
            }
        }
        Ok(values)
    }

    /// A copy of the first value that the reference names.
    pub fn first(&self, alloc: Global, lists: &Lists) -> Result<Option<Value>, NoMemory>
        ensures { IfOk result (λ value. value ≡ slice_get (values_of self.now lists.now) 0) }
    {
        let n = match self.which {
            Which::Nth(n) => n,
            Which::All => 0,
            Which::Count => {
                let count = lists.count(self.list, self.attr.id);
                return Ok(Some(Value::Number(count)));
            }
        };
        copy_of(alloc, lists.nth(self.list, self.attr.id, n))
    }

    /// Adds the text of what the reference names: the values' plain texts joined by commas, or their number in decimal.
    pub fn put_text(
        &self,
        alloc: Global,
        text: &mut Vec<u8>,
        lists: &Lists,
        dict: &Dict,
    ) -> Result<(), NoMemory>
        ensures { OnOk result (text.new.items ≡ text.old.items ++ text_of self.now lists.now dict.now) }
    {
        if self.which == Which::Count {
            let count = lists.count(self.list, self.attr.id);
            return put_decimal(alloc, text, u64::from(count));
        }
        let values = self.values(alloc, lists)?;
        put_joined(alloc, text, self.attr.id, values.as_slice(), dict)
    }
}

fn copy_of(alloc: Global, value: Option<&Value>) -> Result<Option<Value>, NoMemory>
    ensures { IfOk result (λ copy. copy ≡ option_copied value.entry) }
{
    match value {
        Some(value) => Ok(Some(value.try_clone(alloc)?)),
        None => Ok(None),
    }
}

/// Adds a copy of the value, where there is one.
fn push_copy(alloc: Global, values: &mut Vec<Value>, value: Option<&Value>) -> Result<(), NoMemory>
    ensures { OnOk result (values.new.items ≡ values.old.items ++ option_to_list (option_copied value.entry)) }
{
    if let Some(value) = value {
        let copy = value.try_clone(alloc)?;
        values.push(copy)?;
    }
    Ok(())
}

/// Adds a copy of the pair's value, where there is a pair and it is one of the attribute.
fn push_of(
    alloc: Global,
    values: &mut Vec<Value>,
    attr: AttrId,
    pair: Option<&Pair>,
) -> Result<(), NoMemory>
    ensures { OnOk result (values.new.items ≡ values.old.items ++ pairs.values_of attr (option_to_list (option_copied pair.entry))) }
{
    match pair {
        Some(pair) if pair.attr == attr => push_copy(alloc, values, Some(&pair.value)),
        _ => Ok(()),
    }
}

/// Adds copies of the attribute's values in the list, in order.
fn push_all(
    alloc: Global,
    values: &mut Vec<Value>,
    lists: &Lists,
    list: ListName,
    attr: AttrId,
) -> Result<(), NoMemory>
    ensures { OnOk result (values.new.items ≡ values.old.items ++ pairs.values_of attr (list_of lists.now list)) }
{
    for n in 0..lists.len(list) {
        push_of(alloc, values, attr, lists.get(list, n))?;
    }
    Ok(())
}

/// Adds the plain texts of values, joined by commas.
fn put_joined(
    alloc: Global,
    text: &mut Vec<u8>,
    attr: AttrId,
    values: &[Value],
    dict: &Dict,
) -> Result<(), NoMemory>
    ensures { OnOk result (text.new.items ≡ text.old.items ++ joined attr values.now dict.now) }
{
    let Some((first, others)) = values.split_first() else {
        return Ok(());
    };
    put_plain(alloc, text, attr, first, dict)?;
    put_others(alloc, text, attr, others, dict)
}

/// Adds the plain texts of values, each behind a comma.
fn put_others(
    alloc: Global,
    text: &mut Vec<u8>,
    attr: AttrId,
    values: &[Value],
    dict: &Dict,
) -> Result<(), NoMemory>
    ensures { OnOk result (text.new.items ≡ text.old.items ++ others attr values.now dict.now) }
{
    for value in values {
        text.push(b',')?;
        put_plain(alloc, text, attr, value, dict)?;
    }
    Ok(())
}
