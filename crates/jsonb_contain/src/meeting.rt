ghost use Rattle.std.specs.Prelude.{◌≡◌};
ghost use Rattle.std.specs.List.{list_all, list_any};
ghost use Rattle.jsonb_contain.specs.Containment.{at_key, met};
ghost use Rattle.jsonb_contain.specs.declared.value.Json.{out-Json};

use crate::cond::Cond;
use crate::containing::contains;
use crate::value::Json;
use bson_values::Bytes;

fn contains_at(row: &Json, name: &str, one: &Json) -> bool
    ensures { result ≡ at_key name.now one.now (out-Json row.now) }
{
    match row {
        Json::Object(fields) => match fields.get(name) {
            Some(it) => contains(it, one),
            None => false,
        },
        _ => false,
    }
}

/// Whether a row with that key meets the condition.
#[cycle(meets)]
#[tactic(auto, using(crate::proofs::Conds::by_key, crate::proofs::Conds::at_name, crate::proofs::Conds::any_of, crate::proofs::Conds::all_of))]
pub fn meets(cond: &Cond, key: &Bytes, row: &Json) -> bool
    ensures { result ≡ met cond.now key.now row.now }
{
    match cond {
        Cond::KeyIs(wanted) => key.as_slice() == wanted.as_slice(),
        Cond::AtKey(name, one) => contains_at(row, name.as_str(), one),
        Cond::Any(conds) => any_meets(conds.as_slice(), key, row),
        Cond::All(conds) => all_meet(conds.as_slice(), key, row),
    }
}

#[cycle(meets)]
fn any_meets(conds: &[Cond], key: &Bytes, row: &Json) -> bool
    ensures { result ≡ list_any (λ cond. met cond key.now row.now) conds.now }
{
    for cond in conds {
        if meets(cond, key, row) {
            return true;
        }
    }
    false
}

#[cycle(meets)]
fn all_meet(conds: &[Cond], key: &Bytes, row: &Json) -> bool
    ensures { result ≡ list_all (λ cond. met cond key.now row.now) conds.now }
{
    for cond in conds {
        if !meets(cond, key, row) {
            return false;
        }
    }
    true
}
