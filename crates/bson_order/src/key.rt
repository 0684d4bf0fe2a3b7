ghost use Rattle.std.specs.Prelude.{◌≡◌, ◌<◌, ◌^◌, length, IfOk};
ghost use Rattle.bson_spelling.specs.Spelling.{key};

use bson_spelling::{Form, content_len, put_tagged};
use bson_values::{Bytes, NoMemory, Room, Value};
use std::alloc::Global;

/// The bytes by which a value is told apart, as `a_key_tells_values_apart` says: its BSON type byte and its BSON value (bsonspec.org),
/// with each int as a long, and each length as an int64.
pub fn id_key(alloc: Global, value: &Value) -> Result<Bytes, NoMemory>
    ensures key { IfOk result (λ bytes. bytes ≡ key value.now) }
    ensures short { IfOk result (λ bytes. length bytes < 2 ^ 63) }
{
    let len = content_len(Form::Key, value);
    // No memory holds so many bytes.
    if len >= i64::MAX as u64 {
        return Err(NoMemory);
    }
    let mut bytes = Room::new(alloc, len + 1)?;
    put_tagged(Form::Key, value, &mut bytes);
    Ok(bytes.bytes())
}
