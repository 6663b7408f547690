//! The members of an object that is made, one after another.
ghost use Rattle.std.specs.Prelude.{◌≡◌, IfOk};
ghost use Rattle.serde_json.specs.Data.{put, string, number, unsigned};
ghost use Rattle.serde_json.specs.View.{view, members_view};

use cv_base::NoMemory;
use serde_json::{Map, Value};
use std::alloc::Global;

/// The members of an object, in ascending order of their names.
pub type Members = Map<String, Value>;

/// The members with one more.
pub fn with_value(
    alloc: Global,
    members: Members,
    name: &str,
    value: Value,
) -> Result<Members, NoMemory>
    ensures { IfOk result (λ more. members_view more.entries ≡ put name.now (view value) (members_view members.entries)) }
{
    let mut members = members;
    serde_json::put(&mut members, alloc, name, value)?;
    Ok(members)
}

/// The members with a text more.
pub fn with_text(
    alloc: Global,
    members: Members,
    name: &str,
    text: &str,
) -> Result<Members, NoMemory>
    ensures { IfOk result (λ more. members_view more.entries ≡ put name.now (string text.now) (members_view members.entries)) }
{
    let value = Value::try_from_str(alloc, text)?;
    with_value(alloc, members, name, value)
}

/// The members with a number more.
pub fn with_number(
    alloc: Global,
    members: Members,
    name: &str,
    amount: u64,
) -> Result<Members, NoMemory>
    ensures { IfOk result (λ more. members_view more.entries ≡ put name.now (number (unsigned amount)) (members_view members.entries)) }
{
    with_value(alloc, members, name, Value::from(amount))
}
