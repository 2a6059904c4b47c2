// The empty name: it stands where no name is meant.
ghost use Rattle.std.specs.Prelude.{◌≡◌};
ghost use Rattle.model.specs.Stored.{empty_name};

use crate::limits::NAME_LIMIT;
use model::Name;

pub fn no_name() -> Name
    ensures { result ≡ empty_name }
{
    Name {
        bytes: [0u8; NAME_LIMIT],
        len: 0,
    }
}
