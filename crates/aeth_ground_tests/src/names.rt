// That a name's bytes are a name again, and that one, follows from the contracts.
ghost use Rattle.std.specs.Prelude.{◌≡◌, Some};

use aeth_base::Name;

/// The name of a name's bytes, which are a name again.
pub fn same_name(name: &Name) -> Option<Name>
    ensures { result ≡ Some name.now }
{
    Name::new(name.as_bytes())
}
