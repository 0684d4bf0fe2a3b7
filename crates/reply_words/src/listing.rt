ghost use Rattle.std.specs.Prelude.{◌≡◌, codes};
ghost use Rattle.reply_words.specs.Written.{name_of, told_count};

use crate::ends::ItemEnd;

/// An array that tells of items.
#[derive(Clone, Copy)]
pub(crate) enum Listing {
    /// Those that were refused.
    Errors,
    /// Those that inserted a document.
    Upserted,
}

/// The name of its field.
pub(crate) fn name_of(listing: Listing) -> &'static str
    ensures { result.now ≡ codes (name_of listing) }
{
    match listing {
        Listing::Errors => "writeErrors",
        Listing::Upserted => "upserted",
    }
}

/// How many items of the array tell of that end.
pub(crate) fn told_count(listing: Listing, end: &ItemEnd) -> u64
    ensures { result ≡ told_count listing end.now }
{
    match listing {
        Listing::Errors => u64::from(matches!(end, ItemEnd::Refused(_))),
        Listing::Upserted => u64::from(matches!(
            end,
            ItemEnd::Done {
                upserted: Some(_),
                ..
            }
        )),
    }
}
