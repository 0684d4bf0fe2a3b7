ghost use Rattle.std.specs.Prelude.{◌≡◌, ◌^◌, ◌-◌, min};
ghost use Rattle.reply_words.specs.Replies.{total};
ghost use Rattle.reply_words.specs.Written.{counts};

use bson_values::Value;
use case_tables::Kind;

/// How one item of a write ended.
#[derive(Drop)]
pub enum ItemEnd {
    /// It was done, to so many documents (`n`); so many of them are no longer what they were (`changed`); this is the `_id` of one that an
    /// upsert inserted.
    Done {
        n: u64,
        changed: u64,
        upserted: Option<Value>,
    },
    /// It was refused.
    Refused(Kind),
}

/// What is counted of the items.
#[derive(Clone, Copy)]
pub(crate) enum Tally {
    /// To how many documents they were done.
    Done,
    /// How many documents are no longer what they were.
    Changed,
}

fn count(tally: Tally, end: &ItemEnd) -> u64
    ensures { result ≡ counts tally end.now }
{
    match end {
        ItemEnd::Done { n, changed, .. } => match tally {
            Tally::Done => *n,
            Tally::Changed => *changed,
        },
        ItemEnd::Refused(_) => 0,
    }
}

pub(crate) fn total(tally: Tally, ends: &[ItemEnd]) -> u64
    ensures { result ≡ min (total (counts tally) ends.now) (2 ^ 64 - 1) }
{
    let mut total = 0u64;
    let mut rest = ends;
    while let [end, others @ ..] = rest {
        total = total.saturating_add(count(tally, end));
        rest = others;
    }
    total
}
