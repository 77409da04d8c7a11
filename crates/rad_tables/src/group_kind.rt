/// The kind of the group that a statement stands in: `Redundant` inside `redundant` and
/// `redundant-load-balance`, else `Plain`.
#[derive(Clone, Copy, Debug, PartialEq, Eq)]
pub enum GroupKind {
    Plain,
    Redundant,
}
