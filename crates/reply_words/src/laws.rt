ghost use Rattle.std.specs.Prelude.{Bool, true, List, Option, ◌≡◌, ◌≤◌, length};
ghost use Rattle.bson_values.specs.declared.pairs.Pair.{Pair};
ghost use Rattle.bson_values.specs.declared.value.Value.{Value};
ghost use Rattle.bson_wire.specs.Spelling.{spell};
ghost use Rattle.op_msg.specs.Limits.{MOST_REPLY};
ghost use Rattle.reply_words.specs.declared.replies.Reply.{Reply};
ghost use Rattle.reply_words.specs.declared.modified.TheConstants.{MOST_MODIFIED_SIZE};
ghost use Rattle.reply_words.specs.declared.ends.ItemEnd.{ItemEnd};
ghost use Rattle.reply_words.specs.Replies.{document_of, items_document, modified_document};
ghost use Rattle.reply_words.specs.Small.{IsSmall, AreShort, IsShortId, IsShortDocument, MOST_ITEMS, most_items_size};

/// The document of a small reply goes into one message.
pub fn a_small_reply_can_be_sent()
    ensures { (reply : Reply) → IsSmall reply → length (spell (document_of reply)) ≤ MOST_REPLY }
{}

/// Room of `most_items_size` is enough for what `put_items` appends, which goes into one message.
#[tactic(auto, using(crate::proofs::Ended::document_short, crate::proofs::Ended::document_sent))]
pub fn the_room_for_items_is_enough()
    ensures room { (update : Bool) (ends : List ItemEnd) → length ends ≤ MOST_ITEMS → (update ≡ true → AreShort ends)
        → length (spell (items_document update ends)) ≤ most_items_size update (length ends) }
    ensures sent { (update : Bool) (ends : List ItemEnd) → length ends ≤ MOST_ITEMS → (update ≡ true → AreShort ends)
        → length (spell (items_document update ends)) ≤ MOST_REPLY }
{}

/// Room of `MOST_MODIFIED_SIZE` is enough for what `put_modified` appends, which goes into one message.
#[tactic(auto, using(crate::proofs::Shown::document_short, crate::proofs::Shown::document_sent))]
pub fn the_room_for_a_modified_document_is_enough()
    ensures room { (removed existed : Bool) (upserted : Option Value) (shown : Option (List (Pair Value))) → IsShortId upserted
        → IsShortDocument shown → length (spell (modified_document removed existed upserted shown)) ≤ MOST_MODIFIED_SIZE }
    ensures sent { (removed existed : Bool) (upserted : Option Value) (shown : Option (List (Pair Value))) → IsShortId upserted
        → IsShortDocument shown → length (spell (modified_document removed existed upserted shown)) ≤ MOST_REPLY }
{}
