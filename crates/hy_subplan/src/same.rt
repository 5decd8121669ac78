//! Whether keys are the same.

ghost use Rattle.std.specs.Prelude.{◌≡◌, ◌≢◌, true, false};

use al_value::Value;

/// Whether both have the same values, NULL among them.
pub(crate) fn are_same(a: &[Value], b: &[Value]) -> bool
    ensures yes { result ≡ true → a.now ≡ b.now }
    ensures no_ { result ≡ false → a.now ≢ b.now }
{
    a == b
}
