//! What a filter does to a list.

ghost use Rattle.std.specs.Prelude.{◌≡◌, ◌∷◌, [], true, false, IfOk};
ghost use Rattle.std.specs.List.{list_any, list_all};
ghost use Rattle.std.specs.Option.{option_map_or};
ghost use Rattle.mod_users.specs.Files.{all_tried};
ghost use Rattle.mod_filter.specs.Filter.{speaks_of, allows, stays, set_of, sets_of, rule_at, rules_at, set_code, filtered, filtered_by, filter_done};

use crate::rules::{Rule, Rules, is_set, rule_at, rules_for};
use crate::sieve::{Sieve, sift};
use mod_users::Users;
use rad_dict::Dict;
use rad_outside::NoMemory;
use rad_pairs::Item;
use rad_value::{Edit, EditOp, ListName, Lists, Pair};
use rad_words::Code;
use std::alloc::Global;

/// The filter of a key.
#[derive(Drop)]
struct Filter<'a> {
    users: &'a Users,
    rules: &'a [Rule],
    dict: &'a Dict,
}

/// Whether the item of a rule speaks of a pair.
fn speaks_at(users: &Users, rule: Rule, pair: &Pair) -> bool
    ensures { result ≡ option_map_or (speaks_of pair.now) (rule_at users.now rule) false }
{
    match rule_at(users, rule) {
        Some(item) => pair.attr == item.attr,
        None => false,
    }
}

/// Whether some item of a filter speaks of a pair.
fn speak(users: &Users, rules: &[Rule], pair: &Pair) -> bool
    ensures { result ≡ list_any (speaks_of pair.now) (rules_at users.now rules.now) }
{
    for rule in rules {
        if speaks_at(users, *rule, pair) {
            return true;
        }
    }
    false
}

/// Whether the item of a rule lets a pair stay.
fn allows_at(
    alloc: Global,
    users: &Users,
    rule: Rule,
    pair: &Pair,
    dict: &Dict,
) -> Result<bool, NoMemory>
    ensures { IfOk result (λ answer. answer ≡ option_map_or (allows dict.now pair.now) (rule_at users.now rule) true) }
{
    if speaks_at(users, rule, pair) {
        users.reply_meets(alloc, rule.entry, rule.item, &pair.value, dict)
    } else {
        Ok(true)
    }
}

/// Whether each item of a filter lets a pair stay.
fn allow(
    alloc: Global,
    users: &Users,
    rules: &[Rule],
    pair: &Pair,
    dict: &Dict,
) -> Result<bool, NoMemory>
    ensures { IfOk result (λ answer. answer ≡ list_all (allows dict.now pair.now) (rules_at users.now rules.now)) }
{
    for rule in rules {
        if !allows_at(alloc, users, *rule, pair, dict)? {
            return Ok(false);
        }
    }
    Ok(true)
}

impl Sieve for Filter<'_> {
    ghost keeps = { λ f. stays (rules_at f.users.now f.rules.now) f.dict.now };

    #[tactic(auto, unfolding(crate::specs::Filter::stays))]
    fn stays(&self, alloc: Global, pair: &Pair) -> Result<bool, NoMemory> {
        if speak(self.users, self.rules, pair) {
            allow(alloc, self.users, self.rules, pair, self.dict)
        } else {
            Ok(false)
        }
    }
}

/// The edit of a list that an item stands for, where it writes.
fn set_of(alloc: Global, list: ListName, item: &Item) -> Result<Option<Edit>, NoMemory>
    ensures { IfOk result (λ edit. edit ≡ set_of list item.now) }
{
    if !is_set(item.op) {
        return Ok(None);
    }
    Ok(Some(Edit {
        list,
        attr: item.attr,
        op: EditOp::Set,
        value: item.value.try_clone(alloc)?,
    }))
}

/// Does what an item writes, and answers whether the list wasn't full for it.
fn do_set(alloc: Global, list: ListName, item: &Item, lists: &mut Lists) -> Result<bool, NoMemory>
    ensures { IfOk result (λ done. (lists.new, done) ≡ all_tried lists.old (sets_of list (item.now ∷ []))) }
{
    match set_of(alloc, list, item)? {
        Some(edit) => lists.try_update(&edit),
        None => Ok(true),
    }
}

/// Does what the item of a rule writes.
fn do_set_at(
    alloc: Global,
    users: &Users,
    rule: Rule,
    list: ListName,
    lists: &mut Lists,
) -> Result<bool, NoMemory>
    ensures { IfOk result (λ done. (lists.new, done) ≡ all_tried lists.old (sets_of list (rules_at users.now (rule ∷ [])))) }
{
    match rule_at(users, rule) {
        Some(item) => do_set(alloc, list, item, lists),
        None => Ok(true),
    }
}

/// Does what the items of a filter write, in order, up to the first for which the list is full.
fn do_sets(
    alloc: Global,
    users: &Users,
    rules: &[Rule],
    list: ListName,
    lists: &mut Lists,
) -> Result<bool, NoMemory>
    ensures { IfOk result (λ done. (lists.new, done) ≡ all_tried lists.old (sets_of list (rules_at users.now rules.now))) }
{
    for rule in rules {
        if !do_set_at(alloc, users, *rule, list, lists)? {
            return Ok(false);
        }
    }
    Ok(true)
}

fn set_code(done: bool) -> Code
    ensures { result ≡ set_code done }
{
    if done { Code::Updated } else { Code::Fail }
}

/// Lets the pairs of a list stay that a filter's items let stay, and then does what they write.
fn filtered(
    alloc: Global,
    users: &Users,
    rules: &[Rule],
    list: ListName,
    lists: &mut Lists,
    dict: &Dict,
) -> Result<Code, NoMemory>
    ensures { IfOk result (λ code. (lists.new, code) ≡ filtered (rules_at users.now rules.now) dict.now list lists.old) }
{
    sift(alloc, &Filter { users, rules, dict }, list, lists)?;
    let done = do_sets(alloc, users, rules, list, lists)?;
    Ok(set_code(done))
}

/// The same where entries were found, and else nothing.
fn filtered_by(
    alloc: Global,
    users: &Users,
    made: &Rules,
    list: ListName,
    lists: &mut Lists,
    dict: &Dict,
) -> Result<Code, NoMemory>
    ensures { IfOk result (λ code. (lists.new, code) ≡ filtered_by made.now.found (rules_at users.now made.now.rules.items) dict.now list lists.old) }
{
    if made.found {
        filtered(alloc, users, made.rules.as_slice(), list, lists, dict)
    } else {
        Ok(Code::Noop)
    }
}

/// What a filter file does to a list for a key: `Noop` where it has no entry for it, `Fail` where the list was full for an edit,
/// with what came before it done, and else `Updated`.
#[tactic(auto, unfolding(crate::specs::Filter::filter_done))]
pub(crate) fn filter_done(
    alloc: Global,
    users: &Users,
    key: &[u8],
    list: ListName,
    lists: &mut Lists,
    dict: &Dict,
) -> Result<Code, NoMemory>
    ensures { IfOk result (λ code. (lists.new, code) ≡ filter_done users.now key.now dict.now list lists.old) }
{
    let made = rules_for(alloc, users, key)?;
    filtered_by(alloc, users, &made, list, lists, dict)
}
