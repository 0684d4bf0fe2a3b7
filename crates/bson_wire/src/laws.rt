ghost use Rattle.std.specs.Prelude.{◌≡◌, ◌++◌, ◌<◌, ℕ, List, [], length};
ghost use Rattle.bson_values.specs.Measures.{size};
ghost use Rattle.bson_values.specs.declared.pairs.Pair.{Pair};
ghost use Rattle.bson_values.specs.declared.value.Value.{Value};
ghost use Rattle.bson_wire.specs.declared.foreign.Foreign.{Foreign};
ghost use Rattle.bson_wire.specs.Grammar.{LENGTH_LIMIT, spells};
ghost use Rattle.bson_wire.specs.Spellable.{IsSpellable};
ghost use Rattle.bson_spelling.specs.Spelling.{spell};

/// Where two spellings stand at the front of the same bytes, they are one, of one document with one list of foreign elements.
#[tactic(auto, using(crate::proofs::Documents::same_spelling))]
pub fn no_spelling_begins_another()
    ensures { (a b x y : List ℕ) (m n : List (Pair Value)) (f g : List Foreign) → spells a m f → spells b n g
        → a ++ x ≡ b ++ y → (a ≡ b) × (m ≡ n) × (f ≡ g) }
{}

/// What `write` appends is in the grammar, with no foreign element, so `read` gives the document back, whatever follows.
#[tactic(auto, using(crate::proofs::Written::spelled))]
pub fn what_was_written_is_read_again()
    ensures { (doc : List (Pair Value)) → IsSpellable doc → spells (spell doc) doc [] }
{}

/// What `read` gives has a spelling, unless that takes 2^31 bytes or more: it names the items of arrays anew.
#[tactic(auto, using(crate::proofs::Writable::writable))]
pub fn what_was_read_can_be_written()
    ensures { (bytes : List ℕ) (doc : List (Pair Value)) (foreign : List Foreign) → spells bytes doc foreign
        → length (spell doc) < LENGTH_LIMIT → IsSpellable doc }
{}

/// The size of a document is the length of its spelling.
#[tactic(auto, using(crate::proofs::Measured::measured))]
pub fn a_document_is_as_long_as_its_size()
    ensures { (doc : List (Pair Value)) → size doc ≡ length (spell doc) }
{}
