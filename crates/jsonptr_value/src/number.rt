//! A number, as `serde_json` prints it.
ghost use Rattle.std.specs.Prelude.{◌≡◌, List, [], ◌∷◌, ◌++◌, Some, ℕ, OnOk};
ghost use Rattle.json.specs.Token.{number as number_token};
ghost use Rattle.serde_json.specs.Read.{number_of};
ghost use Rattle.serde_json.specs.View.{number_view};
ghost use Rattle.serde_json.specs.Written.{number_text, unless_float};

use json::Writer;
use serde_json::Number;
use std::alloc::AllocError;

/// Writes the number in the form in which `serde_json` does.
#[inline(never)]
pub(crate) fn write_number(number: &Number, out: &mut Writer) -> Result<(), AllocError>
    ensures written { OnOk result ((s : List ℕ)
        × (out.new.tokens ≡ out.old.tokens ++ number_token s ∷ [])
        × (number_of s ≡ Some (number_view number.now))
        × (unless_float s ≡ number_text (number_view number.now))) }
    ensures before { out.new.before ≡ out.old.before }
{
    if let Some(n) = number.as_u64() {
        return out.u64(n);
    }
    if let Some(n) = number.as_i64() {
        return out.i64(n);
    }
    match number.as_f64() {
        Some(x) => out.float_with_plus(x),
        None => unreachable!(),
    }
}
