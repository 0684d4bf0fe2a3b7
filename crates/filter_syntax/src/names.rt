ghost use Rattle.std.specs.Prelude.{◌≡◌};
ghost use Rattle.filter_syntax.specs.Operands.{first_name, has_dollar};

use bson_values::Document;

/// Whether a name begins with `$`.
pub(crate) fn has_dollar(name: &str) -> bool
    ensures { result ≡ has_dollar name.now }
{
    match name.as_bytes() {
        [] => false,
        [byte, ..] => *byte == b'$',
    }
}

/// The name of the first field; empty where there is none.
pub(crate) fn first_name(doc: &Document) -> &str
    ensures { result.now ≡ first_name doc.now }
{
    match doc.as_slice() {
        [] => "",
        [pair, ..] => pair.name.as_str(),
    }
}
