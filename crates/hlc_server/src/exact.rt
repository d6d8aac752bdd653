//! `==` of these types is true exactly on equal values, and each copy is equal.
ghost use Rattle.hlc_events.specs.contracts.exact.CoreEventExact.TheImpl.Laws.{equal-law as event_equal};
ghost use Rattle.hlc_core.specs.contracts.reply.CoreReplyExact.TheImpl.Laws.{equal-law as reply_equal};
ghost use Rattle.std.proofs.Common.{rules, ap};
ghost use Rattle.std.proofs.lemmas.{Bool.Decides.Decides-and, Bool.Decides.Decides-eqb, Grind.common_steps};

use crate::end::WorkEnd;
use crate::entry::{Entry, NotDone, Receipt};
use crate::settle::SettleFault;
use hlc_values::Exact;

impl Exact for Entry {
    ghost equal = { λ a b. let said = Decides-and _ _ (event_equal a.event b.event) (reply_equal a.reply b.reply) in
        let parts = Decides-and _ _ (Decides-eqb a.caller b.caller) said in (
          λ same. let is = parts.0 same in λ i. record { caller = is.0 i; event = is.1.0 i; reply = is.1.1 i },
          λ is. parts.1 (ap (λ e. e.caller) is, (ap (λ e. e.event) is, ap (λ e. e.reply) is)),
        ) };

    ghost copied = { Prim.search rules };
}

impl Exact for Receipt {
    ghost equal = { λ a b. let said = Decides-and _ _ (event_equal a.event b.event) (reply_equal a.reply b.reply) in
        let numbered = Decides-and _ _ (Decides-eqb a.number b.number) said in
        let parts = Decides-and _ _ (Decides-eqb a.caller b.caller) numbered in (
          λ same. let is = parts.0 same in
              λ i. record { caller = is.0 i; number = is.1.0 i; event = is.1.1.0 i; reply = is.1.1.1 i },
          λ is. parts.1 (ap (λ r. r.caller) is, (ap (λ r. r.number) is, (ap (λ r. r.event) is, ap (λ r. r.reply) is))),
        ) };

    ghost copied = { Prim.search rules };
}

impl Exact for NotDone {
    ghost equal = { Prim.search (rules, common_steps) };

    ghost copied = { Prim.search rules };
}

impl Exact for SettleFault {
    ghost use Rattle.std.proofs.Common.{rules};
    ghost use Rattle.std.proofs.lemmas.Grind.{common_steps};

    ghost equal = { Prim.search (rules, common_steps) };

    ghost copied = { Prim.search rules };
}

impl Exact for WorkEnd {
    ghost equal = { Prim.search (rules, common_steps) };

    ghost copied = { Prim.search rules };
}
