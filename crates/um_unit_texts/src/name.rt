// Names of raw trees.
ghost use Rattle.std.specs.Prelude.{◌≡◌};

use um_syntax::Letters;
use um_tree::Name;

/// The name with these letters. Takes no memory.
pub fn name_of(letters: Letters) -> Name
    ensures { result ≡ letters }
{
    Name::from_bytes(letters.into_bytes())
}
