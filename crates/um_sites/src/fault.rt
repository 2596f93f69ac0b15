//! Whether a fault is of a kind and stands at a place.

ghost use Rattle.std.specs.Prelude.{◌≡◌};
ghost use Rattle.um_sites.specs.Sites.{is_unknown, is_twice, is_wrong_count, is_hole, is_range};

use um_measures::NameStop;

pub(crate) fn is_unknown(fault: NameStop, place: u32) -> bool
    ensures { result ≡ is_unknown fault place }
{
    match fault {
        NameStop::Unknown { at } => place == at,
        NameStop::Twice { .. } | NameStop::WrongCount { .. } | NameStop::Hole { .. } => false,
        NameStop::Range { .. } | NameStop::NoMemory => false,
    }
}

pub(crate) fn is_twice(fault: NameStop, place: u32) -> bool
    ensures { result ≡ is_twice fault place }
{
    match fault {
        NameStop::Twice { at } => place == at,
        NameStop::Unknown { .. } | NameStop::WrongCount { .. } | NameStop::Hole { .. } => false,
        NameStop::Range { .. } | NameStop::NoMemory => false,
    }
}

pub(crate) fn is_wrong_count(fault: NameStop, place: u32) -> bool
    ensures { result ≡ is_wrong_count fault place }
{
    match fault {
        NameStop::WrongCount { at } => place == at,
        NameStop::Unknown { .. } | NameStop::Twice { .. } | NameStop::Hole { .. } => false,
        NameStop::Range { .. } | NameStop::NoMemory => false,
    }
}

pub(crate) fn is_hole(fault: NameStop, place: u32) -> bool
    ensures { result ≡ is_hole fault place }
{
    match fault {
        NameStop::Hole { at } => place == at,
        NameStop::Unknown { .. } | NameStop::Twice { .. } | NameStop::WrongCount { .. } => false,
        NameStop::Range { .. } | NameStop::NoMemory => false,
    }
}

pub(crate) fn is_range(fault: NameStop) -> bool
    ensures { result ≡ is_range fault }
{
    match fault {
        NameStop::Range { .. } => true,
        NameStop::Unknown { .. } | NameStop::Twice { .. } | NameStop::WrongCount { .. } => false,
        NameStop::Hole { .. } | NameStop::NoMemory => false,
    }
}
