//! The words for rights.

ghost use Rattle.std.specs.Prelude.{◌≡◌};
ghost use Rattle.toml.specs.View.{view};
ghost use Rattle.hg_policy_text.specs.Faults.{Gives};
ghost use Rattle.hg_policy_text.specs.Grants.{right_in};

use crate::fault::PolicyFault;
use crate::key::Key;
use hg_place::Right;
use toml::Value;

pub(crate) fn right(value: &Value) -> Result<Right, PolicyFault>
    ensures { Gives (λ right. right) result (right_in (view value.now)) }
{
    match value.as_str() {
        Some("read") => Ok(Right::Read),
        Some("write") => Ok(Right::Write),
        Some("list") => Ok(Right::List),
        Some("free") => Ok(Right::Free),
        _ => Err(PolicyFault::Kind(Key::Rights)),
    }
}
