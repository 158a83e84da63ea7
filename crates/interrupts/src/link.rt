// The link, of which EPH has the change.
ghost use Rattle.std.specs.Prelude.{◌≡◌, ◌<◌};
ghost use Rattle.rules.specs.Bits.{bit};

// Was a change of it seen, by its word?
pub fn has_changed(link: u16) -> bool
    requires { link < 4 }
    ensures { result ≡ bit 1 link }
{
    1 < link
}
