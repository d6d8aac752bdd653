//! What is true of every schedule that a world can represent.
ghost use Rattle.std.specs.Prelude.{◌<◌, ℕ, List};
ghost use Rattle.hlc_world_event.specs.Events.{Event as AnEvent};
ghost use Rattle.hlc_world.specs.{declared.reply.Reply.Reply as AReply, Headline.IsFaithful};
ghost use Rattle.hlc_world.specs.{Expected.IsLegal, Expected.GoesByNumber, Before.HappenedBefore, Before.IsStamped};
ghost use Rattle.hlc_world.specs.Floor.{IsComplete, IsBelowClocks, IsClosed};
ghost use Rattle.hlc_world.specs.WorldView.{WorldView, Represents};

/// In a legal schedule, which is one where each reply was allowed and so each one that a world represents: if an event
/// happened before another (Lamport 1978), its stamp is the lesser.
pub fn stamps_follow_events()
    ensures { (nodes : ℕ) (schedule : List (AnEvent × AReply)) (first later : ℕ) (n a m b : ℕ)
        → IsLegal nodes schedule
        → HappenedBefore schedule first later → IsStamped schedule first n a
        → IsStamped schedule later m b → a < b }
{}

/// In a legal schedule, apart from out of memory, an issued item is refused only because of its number, or because its
/// node's last item was accepted: never because its stamp is too low, or because its key or value is bad.
pub fn items_go_by_number()
    ensures { (nodes : ℕ) (schedule : List (AnEvent × AReply)) → IsLegal nodes schedule
        → GoesByNumber nodes schedule }
{}

/// In a legal schedule every issued item at or below the floor was accepted, so what is read there is final.
pub fn the_floor_is_complete()
    ensures { (nodes : ℕ) (schedule : List (AnEvent × AReply)) → IsLegal nodes schedule
        → IsComplete nodes schedule }
{}

/// In a legal schedule no clock of a node whose last item was not yet accepted is below the floor.
pub fn no_clock_is_below_the_floor()
    ensures { (nodes : ℕ) (schedule : List (AnEvent × AReply)) → IsLegal nodes schedule
        → IsBelowClocks nodes schedule }
{}

/// In a legal schedule the past of each open snapshot is whole: what happened before an item that is read there is read
/// there too.
pub fn open_snapshots_are_closed()
    ensures { (nodes : ℕ) (schedule : List (AnEvent × AReply)) → IsLegal nodes schedule
        → IsClosed nodes schedule }
{}

/// A world is faithful to each schedule that it represents. Its store is faithful to its history: reads returned the
/// newest accepted values, no answer of a snapshot changed, vacuums were the least and the cheapest, and left the
/// fewest rows. That history has each moment of the schedule, and what can be read is closed under happened-before.
pub fn worlds_are_faithful()
    ensures { (nodes : ℕ) (state : WorldView) (schedule : List (AnEvent × AReply))
        → Represents nodes state schedule → IsFaithful nodes schedule state.core.rows }
{}
