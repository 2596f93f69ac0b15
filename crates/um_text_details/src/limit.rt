// What is told of a limit.
ghost use Rattle.std.specs.Prelude.{◌≡◌, ◌++◌, OnOk};
ghost use Rattle.um_text_details.specs.LimitDetails.{limit_details, most, range_details};

use std::alloc::AllocError;
use um_types::LimitKind;

/// Adds what is told of a limit that a program passes: how much is allowed. The limits are this project's own. Want of
/// memory is the one error.
pub fn push_limit_details(text: &mut Vec<u8>, kind: LimitKind) -> Result<(), AllocError>
    ensures details { OnOk result (text.new.items ≡ text.old.items ++ limit_details kind) }
{
    text.extend_from_slice(b"at most ")?;
    text.extend_from_slice(most(kind).as_bytes())?;
    text.push(b'\n')?;
    Ok(())
}

/// Adds what is told of a power that is out of range. Want of memory is the one error.
pub fn push_range_details(text: &mut Vec<u8>) -> Result<(), AllocError>
    ensures details { OnOk result (text.new.items ≡ text.old.items ++ range_details) }
{
    text.extend_from_slice(b"powers go from -2147483647 to 2147483647\n")
}

/// How much is allowed.
fn most(kind: LimitKind) -> &'static str
    ensures { result.now ≡ most kind }
{
    match kind {
        LimitKind::Height => "400 levels",
        LimitKind::Functions => "2000 functions",
        LimitKind::Parameters => "16 parameters",
        LimitKind::Fields => "32 fields",
        LimitKind::UnitParameters => "4 unit parameters",
        LimitKind::Nodes => "20000 nodes",
        LimitKind::Depth => "400 levels of types",
        LimitKind::Slots => "2000 open units",
    }
}
