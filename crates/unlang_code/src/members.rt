//! What a statement gives its group, and the member at which a block that balances begins.

ghost use Rattle.std.specs.Prelude.{◌≡◌, length};
ghost use Rattle.unlang_code.specs.Progressing.{child_done, return_done, untaken_done, as_done};
ghost use Rattle.unlang_code.specs.Run.{picked_of};

use crate::judgement::{Child, child_of};
use crate::progress::{Done, Ended, Signal};
use rad_tables::GroupKind;
use rad_value::Scope;
use rad_words::Section;
use unlang_tree::Override;

/// A statement that gave a child.
pub(crate) fn of_child(child: Child) -> Done
    ensures { result ≡ child_done child }
{
    Done {
        signal: Signal::Goes,
        child: Some(child),
    }
}

/// A `return`.
pub(crate) fn returned() -> Done
    ensures { result ≡ return_done }
{
    Done {
        signal: Signal::Returns,
        child: None,
    }
}

/// An `if` of which no arm is taken. It is no child.
pub(crate) fn not_taken() -> Done
    ensures { result ≡ untaken_done }
{
    Done {
        signal: Signal::Goes,
        child: None,
    }
}

/// A block that came to its end, as a statement of its group.
pub(crate) fn as_done(
    section: Section,
    kind: GroupKind,
    overrides: &[Override],
    ended: Ended,
) -> Done
    ensures { result ≡ as_done section kind overrides.now ended }
{
    Done {
        signal: ended.signal,
        child: match ended.code {
            Some(code) => Some(child_of(section, kind, overrides, code)),
            None => None,
        },
    }
}

/// The member at which a block of so many members that balances begins; none where it has none. The sum of a word of 64
/// bits and one of 32 bits doesn't wrap.
pub(crate) fn picked(scope: &Scope, members: usize) -> Option<usize>
    ensures { result ≡ picked_of scope.now members }
{
    if members == 0 {
        return None;
    }
    let sum = u128::from(scope.luck) + u128::from(scope.choices);
    Some((sum % members as u128) as usize)
}
