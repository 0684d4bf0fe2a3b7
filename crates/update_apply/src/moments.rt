ghost use Rattle.std.specs.Prelude.{◌≡◌};
ghost use Rattle.update_syntax.specs.After.{moment_value};

use bson_values::Value;

/// How many timestamps a second has.
const COUNTS: u64 = 4_294_967_296;

/// A moment in milliseconds, as a date or as a timestamp.
pub(crate) fn moment_value(date: bool, now: u64) -> Value
    ensures { result ≡ moment_value date now }
{
    if date {
        return Value::Date(now.min(i64::MAX as u64) as i64);
    }
    Value::Stamp(now / 1000 % COUNTS * COUNTS + 1)
}
