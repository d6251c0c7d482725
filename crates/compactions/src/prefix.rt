// The order of segments' prefixes.
ghost use Rattle.std.specs.Prelude.{◌≡◌};
ghost use Rattle.compactions.specs.Prefixes.{before};

// Whether one prefix stands before another, byte by byte; a proper beginning stands before.
pub(crate) fn is_below(a: &[u8], b: &[u8]) -> bool
    ensures { result ≡ before a.now b.now }
{
    a < b
}
