ghost use Rattle.std.specs.Prelude.{◌≡◌};
ghost use Rattle.bson_values.specs.declared.value.Value.TheViews.{out-Value};
ghost use Rattle.naming.specs.Ids.{can_be_id};

use bson_values::Value;

/// Whether the value may be an `_id`: MongoDB Manual, "The _id Field".
pub fn can_be_id(value: &Value) -> bool
    ensures { result ≡ can_be_id (out-Value value.now) }
{
    !matches!(value, Value::Arr(_) | Value::Regex(_))
}
