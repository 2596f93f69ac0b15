// Heights as they are counted beside trees: up to one above the greatest that is allowed.
ghost use Rattle.std.specs.Prelude.{◌≡◌, ◌+◌, ◌≤◌, max};
ghost use Rattle.um_unit_texts.specs.UnitCount.{counted};
ghost use Rattle.um_unit_texts.specs.UnitStops.{greatest_height};

/// The greatest height of a unit text, a type text and an expression.
pub const GREATEST_HEIGHT: u32 = 400;

/// One above it. Heights are counted up to this.
pub const TOO_HIGH: u32 = GREATEST_HEIGHT + 1;

/// The sum, counted.
pub fn counted_sum(left: u32, right: u32) -> u32
    requires left { left ≤ greatest_height + 1 }
    requires right { right ≤ greatest_height + 1 }
    ensures { result ≡ counted (left + right) }
{
    let sum = left + right;
    if sum < TOO_HIGH { sum } else { TOO_HIGH }
}

/// One more, counted.
pub fn one_higher(height: u32) -> u32
    ensures { result ≡ counted (height + 1) }
{
    if height < TOO_HIGH {
        height + 1
    } else {
        TOO_HIGH
    }
}

/// The greater of the two.
pub fn higher(left: u32, right: u32) -> u32
    ensures { result ≡ max left right }
{
    if left < right { right } else { left }
}
