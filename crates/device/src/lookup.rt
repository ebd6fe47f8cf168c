// What an edge look-up answered, taken apart.
ghost use Rattle.std.specs.Prelude.{◌≡◌, is_some};
ghost use Rattle.protocol.specs.Tables.{same_option};

// Whether the edge leads on: its answer is declared.
pub(crate) fn leads_on(successor: Option<u8>) -> bool
    ensures { result ≡ is_some successor }
{
    match successor {
        Some(_) => true,
        None => false,
    }
}

// Whether two edges lead to one station, or both are none.
pub(crate) fn same_successor(one: Option<u8>, other: Option<u8>) -> bool
    ensures { result ≡ same_option one other }
{
    match (one, other) {
        (Some(one), Some(other)) => one == other,
        (None, None) => true,
        (Some(_), None) | (None, Some(_)) => false,
    }
}
