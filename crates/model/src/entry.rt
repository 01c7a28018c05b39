//! An entry of a row: a value, or open. Entries are matched, so that each case reads as its rule does.
ghost use Rattle.std.specs.Prelude.{◌≡◌};
ghost use Rattle.model.specs.Rows.{keeps, differ, same_entry};
ghost use Rattle.model.specs.Moves.{or_else};

/// Whether the second entry is the first, if that is given.
pub fn entry_kept(mine: Option<u8>, theirs: Option<u8>) -> bool
    ensures { result ≡ keeps mine theirs }
{
    match (mine, theirs) {
        (Some(value), Some(found)) => found == value,
        (Some(_), None) => false,
        (None, _) => true,
    }
}

/// Whether both entries are open, or give the same value.
pub(crate) fn entries_same(mine: Option<u8>, theirs: Option<u8>) -> bool
    ensures { result ≡ same_entry mine theirs }
{
    match (mine, theirs) {
        (Some(value), Some(found)) => value == found,
        (None, None) => true,
        _ => false,
    }
}

/// Whether both entries are given, with different values.
pub fn entries_differ(mine: Option<u8>, theirs: Option<u8>) -> bool
    ensures { result ≡ differ mine theirs }
{
    match (mine, theirs) {
        (Some(value), Some(found)) => value != found,
        _ => false,
    }
}

/// The entry behind a move: the effect if given, else the row's entry if given, else the condition if given, else open.
pub fn next_entry(effect: Option<u8>, entry: Option<u8>, condition: Option<u8>) -> Option<u8>
    ensures { result ≡ or_else effect (or_else entry condition) }
{
    match (effect, entry) {
        (Some(value), _) | (None, Some(value)) => Some(value),
        (None, None) => condition,
    }
}
