//! Where an item of a users file stands, which decides the operators that it takes.

ghost use Rattle.std.specs.Prelude.{◌≡◌};
ghost use Rattle.mod_users.specs.Forms.{is_internal, is_assigned, is_filtering, takes};

use rad_pairs::PairOp;
use rad_words::Space;

/// Where an item stands.
#[derive(Clone, Copy, Debug, PartialEq, Eq)]
pub enum Form {
    /// Behind an entry's name: every operator, but `=` for internal attributes alone.
    Check,
    /// Below it in a users file: `=`, `:=` and `+=`.
    Reply,
    /// Below it in a filter file: every operator but `=` and `+=`.
    Filter,
}

/// Whether an attribute never goes on the wire.
fn is_internal(space: Space) -> bool
    ensures { result ≡ is_internal space }
{
    matches!(space, Space::Internal)
}

/// Whether the operator is `=`, `:=` or `+=`.
fn is_assigned(op: PairOp) -> bool
    ensures { result ≡ is_assigned op }
{
    matches!(op, PairOp::Eq | PairOp::Set | PairOp::Append)
}

/// Whether the operator is neither `=` nor `+=`.
fn is_filtering(op: PairOp) -> bool
    ensures { result ≡ is_filtering op }
{
    !matches!(op, PairOp::Eq | PairOp::Append)
}

/// Whether an item there takes this operator, for an attribute of this space.
pub fn takes(form: Form, space: Space, op: PairOp) -> bool
    ensures { result ≡ takes form space op }
{
    match form {
        Form::Check => is_internal(space) || !matches!(op, PairOp::Eq),
        Form::Reply => is_assigned(op),
        Form::Filter => is_filtering(op),
    }
}
