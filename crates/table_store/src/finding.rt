ghost use Rattle.std.specs.Prelude.{◌≡◌, ◌==◌};
ghost use Rattle.std.specs.List.{position};
ghost use Rattle.table_store.specs.Found.{FoundName, FoundNumber};

use crate::live::Live;
use bson_values::Space;

fn first_of(number: u64, live: &[Live]) -> Option<usize>
    ensures { result ≡ position (λ kept. number == kept.table.number) live.now }
{
    live.iter().position(|kept| number == kept.table.number())
}

/// Where the table of the number stands.
pub(crate) fn place_of(number: u64, live: &[Live]) -> Option<usize>
    ensures { FoundNumber number live.now result }
{
    first_of(number, live)
}

/// The number of the table of the space.
pub(crate) fn number_of(space: &Space, live: &[Live]) -> Option<u64>
    ensures { FoundName space.now live.now result }
{
    let mut rest = live;
    while let [kept, others @ ..] = rest {
        if space.is(&kept.space) {
            return Some(kept.table.number());
        }
        rest = others;
    }
    None
}
