//! A world is a run of one store: what is true of a run of several stores is true of each world.
#![tactic(auto)]

ghost use Rattle.std.specs.Prelude.{◌≡◌, ℕ, List, reverse};
ghost use Rattle.hlc_world.specs.{Schedule.issued, Schedule.last_stamp, Store.core_past, Expected.IsLegal};
ghost use Rattle.hlc_world_event.specs.Events.{Event as AnEvent};
ghost use Rattle.hlc_world.specs.{declared.reply.Reply.Reply as AReply, Before.HappenedBefore, Before.IsStamped};
ghost use Rattle.hlc_ranges.specs.Run.{past_of, issued as issued_in, last_stamp as clock_in, IsLegal as IsLegalRun};
ghost use Rattle.hlc_ranges.specs.Before.{HappenedBefore as HappenedBeforeIn, IsStamped as IsStampedIn};
ghost use Rattle.hlc_world_run.specs.RunOf.{layout_of, run_of, place};

/// A legal schedule, which is one where each reply was allowed and so each one that a world represents, is a legal run
/// of one store. The store's past is that of the world's store; the items of each link and the clock of each node are
/// the same; an event of a node has the same stamp there; and what happened before another event happened before it.
pub fn worlds_are_runs()
    ensures legal { (nodes : ℕ) (schedule : List (AnEvent × AReply)) → IsLegal nodes schedule
        → IsLegalRun (layout_of nodes) (run_of nodes schedule) }
    ensures past { (nodes : ℕ) (schedule : List (AnEvent × AReply)) → IsLegal nodes schedule
        → past_of (layout_of nodes) 0 (run_of nodes schedule) ≡ core_past nodes schedule }
    ensures items { (nodes : ℕ) (schedule : List (AnEvent × AReply)) (n : ℕ) → IsLegal nodes schedule
        → issued_in 0 n (run_of nodes schedule) ≡ reverse (issued n schedule) }
    ensures clocks { (nodes : ℕ) (schedule : List (AnEvent × AReply)) (n : ℕ) → IsLegal nodes schedule
        → clock_in (layout_of nodes) n (run_of nodes schedule) ≡ last_stamp n schedule }
    ensures stamps { (nodes : ℕ) (schedule : List (AnEvent × AReply)) (turn n stamp : ℕ) → IsLegal nodes schedule
        → IsStamped schedule turn n stamp
        → IsStampedIn (layout_of nodes) (run_of nodes schedule) (place nodes schedule turn) n stamp }
    ensures events { (nodes : ℕ) (schedule : List (AnEvent × AReply)) (number n stamp : ℕ)
        → IsStampedIn (layout_of nodes) (run_of nodes schedule) number n stamp
        → (turn : ℕ) × (place nodes schedule turn ≡ number) × IsStamped schedule turn n stamp }
    ensures before { (nodes : ℕ) (schedule : List (AnEvent × AReply)) (first later : ℕ) → IsLegal nodes schedule
        → HappenedBefore schedule first later
        → HappenedBeforeIn (layout_of nodes) (run_of nodes schedule) (place nodes schedule first)
        (place nodes schedule later) }
{}
