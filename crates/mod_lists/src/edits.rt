ghost use Rattle.std.specs.Prelude.{◌≡◌, Some, None, MatchBool, IfOk};
ghost use Rattle.rad_value.specs.Edit.{tried};
ghost use Rattle.mod_lists.specs.Edits.{text_set};

use rad_outside::{NoMemory, Octets};
use rad_value::{Edit, EditOp, ListName, Lists, Value};
use rad_words::AttrId;
use std::alloc::Global;

/// The edit `&LIST:ATTRIBUTE := TEXT`.
fn text_edit(alloc: Global, list: ListName, attr: AttrId, text: &[u8]) -> Result<Edit, NoMemory>
    ensures { IfOk result (λ edit. edit ≡ text_set list attr text.now) }
{
    Ok(Edit {
        list,
        attr,
        op: EditOp::Set,
        value: Value::Text(Octets::of(alloc, text)?),
    })
}

/// Sets an attribute of a list to a text, and answers whether the list wasn't full for it. Where it was, the lists are as
/// they were.
pub fn set_text(
    alloc: Global,
    lists: &mut Lists,
    list: ListName,
    attr: AttrId,
    text: &[u8],
) -> Result<bool, NoMemory>
    ensures { IfOk result (λ done. MatchBool done
        (tried lists.old (text_set list attr text.now) ≡ Some lists.new)
        ((tried lists.old (text_set list attr text.now) ≡ None) × (lists.new ≡ lists.old))) }
{
    let edit = text_edit(alloc, list, attr, text)?;
    lists.try_update(&edit)
}
