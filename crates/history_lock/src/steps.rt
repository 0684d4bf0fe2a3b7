// The steps of the lock on its table.
ghost use Rattle.std.specs.Prelude.{◌≡◌, ℕ, ◌<◌, true, [], ◌∷◌, Some};
ghost use mathlib.Core.List.{IsPrefix};
ghost use Rattle.history_lock.specs.declared.rule.Held.TheVariants.{Here, Taken};
ghost use Rattle.history_lock.specs.declared.rule.Stage.TheVariants.{Free};
ghost use Rattle.history_lock.specs.Parts.{Called, IsLock, Sits, is_turn};
ghost use Rattle.history_lock.specs.Rule.{meaning, origin_of};
ghost use Rattle.history_lock.specs.Steps.{Ends, Served, leaving, longer, merged, shorter, staying};

use crate::entry::Who;
use crate::object::Object;
use crate::rule::{Cut, Draw, Held, Known, Law, Learn, Log, Look, Merge, Note, Offer, Pass, Start};
use crate::seat::Place;
use atomic_table::{Shared, Table};
use std::alloc::Global;
use std::snapshot::Snapshot;
use std::sync::Wait;

/// The number of calls in the history.
pub(crate) const COUNT: usize = 0;

/// The ticket that is drawn next.
pub(crate) const TICKETS: usize = 1;

/// The ticket that is served.
pub(crate) const SERVING: usize = 2;

/// Where the object is at home.
pub(crate) const SLOT: usize = 0;

pub(crate) type Top<O> = Shared<
    Held<O, <O as Object>::Call, <O as Object>::Reply>,
    Known<<O as Object>::State, <O as Object>::Call, <O as Object>::Reply>,
    Start<O>,
    Law,
>;

pub(crate) type Shelf<O> = Table<
    Held<O, <O as Object>::Call, <O as Object>::Reply>,
    Known<<O as Object>::State, <O as Object>::Call, <O as Object>::Reply>,
    Start<O>,
    Law,
    Global,
>;

/// Waits until the seat's ticket is served, and takes the slot.
pub(crate) fn take_turn<O: Object, R: Wait>(rt: &R, top: &Top<O>, place: &mut Place<O>)
    requires table { (place.old.table_id ≡ top.now.table_id) × IsLock top.now.table_id }
    requires sits { (key : _) × (place.old.me.0.origin ≡ Some key) × (0 < place.old.me.0.parts) }
    requires free { (place.old.me.0.stage ≡ Free) × (place.old.me.1 ≡ []) }
    ensures same { (place.new.table_id ≡ place.old.table_id) × (place.new.id ≡ place.old.id) }
    ensures served { (t : ℕ) × Served (meaning O.state O.faults O.allows O.next) t place.old.me place.new.me }
{
    let ticket = top.fetch_add::<Draw>(place, TICKETS, 1);
    for _ in rt.forever() {
        let serving = top.load::<Look>(place, SERVING);
        if serving == ticket {
            return;
        }
        top.park(rt, SERVING, (serving % (1 << 32)) as u32);
    }
    unreachable!()
}

/// The same for a seat with all parts, which has nobody before it.
pub(crate) fn take_turn_alone<O: Object>(top: &Top<O>, place: &mut Place<O>)
    requires table { (place.old.table_id ≡ top.now.table_id) × IsLock top.now.table_id }
    requires sits { (key : _) × (place.old.me.0.origin ≡ Some key) × (0 < place.old.me.0.parts)
        × (place.old.me.0.parts ≡ key.parts) }
    requires free { (place.old.me.0.stage ≡ Free) × (place.old.me.1 ≡ []) }
    ensures same { (place.new.table_id ≡ place.old.table_id) × (place.new.id ≡ place.old.id) }
    ensures served { (t : ℕ) × Served (meaning O.state O.faults O.allows O.next) t place.old.me place.new.me }
    ensures seen { place.new.me.0.at ≡ place.old.me.0.at }
{
    top.fetch_add::<Draw>(place, TICKETS, 1);
    top.load::<Look>(place, SERVING);
}

/// Takes the object out of the slot.
pub(crate) fn take_object<O: Object>(top: &Top<O>, place: &mut Place<O>) -> O
    requires table { place.old.table_id ≡ top.now.table_id }
    requires slot { (object : _) × (place.old.me.1 ≡ (SLOT, Here object) ∷ []) }
    ensures same { (place.new.table_id ≡ place.old.table_id) × (place.new.id ≡ place.old.id) }
    ensures object { place.old.me.1 ≡ (SLOT, Here result) ∷ [] }
    ensures slot { place.new.me ≡ (place.old.me.0, (SLOT, Taken) ∷ []) }
{
    let Held::Here(object) = top.exchange(place, SLOT, Held::Taken) else {
        unreachable!()
    };
    object
}

/// Puts a note or the object into the slot.
pub(crate) fn put<O: Object>(top: &Top<O>, place: &mut Place<O>, held: Held<O, O::Call, O::Reply>)
    requires table { place.old.table_id ≡ top.now.table_id }
    requires slot { (before : _) × (place.old.me.1 ≡ (SLOT, before) ∷ []) }
    ensures same { (place.new.table_id ≡ place.old.table_id) × (place.new.id ≡ place.old.id) }
    ensures slot { place.new.me ≡ (place.old.me.0, (SLOT, held) ∷ []) }
{
    drop(top.exchange(place, SLOT, held));
}

/// Makes a call in the seat's turn.
pub(crate) fn make_call<O: Object>(
    top: &Top<O>,
    place: &mut Place<O>,
    start: &Snapshot<Start<O>>,
    who: Who,
    call: O::Call,
) -> O::Reply
    requires table { (place.old.table_id ≡ top.now.table_id) × IsLock top.now.table_id }
    requires sits { Sits (meaning O.state O.faults O.allows O.next) (origin_of O.state O.faults start.now.value) place.old.me }
    requires turn { is_turn place.old.me.0.stage ≡ true }
    requires accepted { O.accepts call }
    ensures same { (place.new.table_id ≡ place.old.table_id) × (place.new.id ≡ place.old.id) }
    ensures called { Called (meaning O.state O.faults O.allows O.next) (origin_of O.state O.faults start.now.value)
        place.old.me place.new.me who call result }
{
    let asked = Snapshot::of(&call);
    let mut object = take_object(top, place);
    let before = Snapshot::of(&object);
    let reply = object.run(call);
    let note = Note {
        who,
        call: asked,
        reply: Snapshot::of(&reply),
        before,
        after: Snapshot::of(&object),
    };
    put(top, place, Held::Made(note));
    top.fetch_add::<Log>(place, COUNT, 1);
    put(top, place, Held::Here(object));
    reply
}

/// Gives the slot back with the object in it, and serves the next ticket.
pub(crate) fn pass_turn<O: Object>(top: &Top<O>, place: &mut Place<O>)
    requires table { (place.old.table_id ≡ top.now.table_id) × IsLock top.now.table_id }
    requires sits { (origin : _) × Sits (meaning O.state O.faults O.allows O.next) origin place.old.me }
    requires turn { is_turn place.old.me.0.stage ≡ true }
    ensures same { (place.new.table_id ≡ place.old.table_id) × (place.new.id ≡ place.old.id) }
    ensures passed { place.new.me ≡ (record place.old.me.0 { stage = Free }, []) }
{
    let served = top.fetch_add::<Pass>(place, SERVING, 1);
    // A seat draws its ticket before it looks: one that is not seen here finds the ticket that is served now.
    if top.peek(TICKETS) != served.wrapping_add(1) {
        top.wake_all(SERVING);
    }
}

/// Moves so many parts to a new seat. A split has no number of its own: an exchange that changes nothing says it.
pub(crate) fn cut<O: Object>(top: &Top<O>, place: &mut Place<O>, parts: u64) -> Place<O>
    requires table { (place.old.table_id ≡ top.now.table_id) × IsLock top.now.table_id }
    requires free { (place.old.me.0.stage ≡ Free) × (place.old.me.1 ≡ []) }
    requires parts { (0 < parts) × (parts < place.old.me.0.parts) }
    ensures same { (place.new.table_id ≡ place.old.table_id) × (place.new.id ≡ place.old.id) }
    ensures table { result.table_id ≡ place.old.table_id }
    ensures stays { place.new.me ≡ (staying (record place.old.me.0 { offer = parts }), []) }
    ensures leaves { result.me ≡ (leaving (record place.old.me.0 { offer = parts }), []) }
{
    top.compare_exchange::<Offer>(place, COUNT, parts, parts);
    top.split_seat::<Cut>(place)
}

/// Makes one seat of two. What is told of the two lists is learned by a load.
pub(crate) fn merge<O: Object>(top: &Top<O>, place: &mut Place<O>, other: Place<O>)
    requires table { (place.old.table_id ≡ top.now.table_id) × IsLock top.now.table_id }
    requires other { other.table_id ≡ top.now.table_id }
    requires free { (place.old.me.0.stage ≡ Free) × (place.old.me.1 ≡ []) }
    requires other_free { (other.me.0.stage ≡ Free) × (other.me.1 ≡ []) }
    ensures same { (place.new.table_id ≡ place.old.table_id) × (place.new.id ≡ place.old.id) }
    ensures merged { place.new.me ≡ (record (merged place.old.me.0 other.me.0) { told = [] }, []) }
    ensures told { IsPrefix (shorter place.old.me.0.at.seen other.me.0.at.seen) (longer place.old.me.0.at.seen other.me.0.at.seen) }
{
    top.join_seat::<Merge>(place, other);
    top.load::<Learn>(place, COUNT);
}

/// Takes the table apart, once a seat has all parts: the object, and the number of calls modulo 2^64.
pub(crate) fn take_apart<O: Object>(table: Shelf<O>, place: Place<O>, start: &Start<O>) -> (O, u64)
    requires table { (place.table_id ≡ table.shared.table_id) × IsLock table.shared.table_id × (table.shared.key ≡ start.now) }
    requires free { place.me.0.stage ≡ Free }
    requires all { place.me.0.parts ≡ start.now.parts }
    ensures { Ends (meaning O.state O.faults O.allows O.next) (origin_of O.state O.faults start.now) place.me.0.at result.0 result.1 }
{
    let mut closed = table.close_with(place);
    let count = closed.word(COUNT);
    let Held::Here(object) = closed.take(SLOT) else {
        unreachable!()
    };
    closed.free();
    (object, count)
}
