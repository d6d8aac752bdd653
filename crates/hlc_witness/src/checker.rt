//! The checker of certificates.
ghost use Rattle.std.specs.Prelude.{◌≡◌, ◌↔◌, IsTrue, IsOk, IfOk, IfErr, IsNone, MatchOption, length};
ghost use Rattle.hlc_rows.specs.Rows.{answer};
ghost use Rattle.hlc_clock.specs.Points.{PointsAscend};
ghost use Rattle.hlc_witness.specs.{Fewest.Fewest, Cost.Cheapest, Cost.rows_cost};
ghost use Rattle.hlc_witness.specs.Changes.{ChangesAscend, IsAtPoint, IsChange, answer_at};
ghost use Rattle.hlc_witness.specs.Certificate.{IsCertificate, RowsAscend};
ghost use Rattle.hlc_witness.specs.Reasons.{IsAbove, IsFault, IsFirstReason};

use crate::cost::{are_in_limits, rows_cost};
use crate::order::{do_points_ascend, do_rows_ascend, is_above, is_none_above};
use crate::reason::NotShown;
use crate::search::{value_at, value_in};
use crate::shown::Shown;
use crate::witness::Witness;
use hlc_clock::Stamp;
use hlc_rows::Row;

/// Checks that the witnesses show as many changes as there are rows, so that the rows are the
/// fewest and the cheapest that answer as they do at the points. It needs no memory, and trusts
/// neither the rows nor the witnesses.
pub fn check(rows: &[Row], points: &[Stamp], witnesses: &[Witness]) -> Result<Shown, NotShown>
    ensures certificate { IfOk result (λ _. IsCertificate rows.now points.now witnesses.now) }
    ensures count { IfOk result (λ shown. shown.rows ≡ length rows.now) }
    ensures cost { IfOk result (λ shown. shown.cost ≡ rows_cost rows.now) }
    ensures fewest { IfOk result (λ _. Fewest rows.now rows.now points.now) }
    ensures cheapest { IfOk result (λ _. Cheapest rows.now rows.now points.now) }
    ensures reason { IfErr result
        (λ reason. IsFirstReason rows.now points.now witnesses.now reason) }
    ensures only { IsCertificate rows.now points.now witnesses.now → IsOk result }
{
    match reason_against(rows, points, witnesses) {
        Some(reason) => Err(reason),
        None => Ok(Shown::of(rows.len() as u64, rows_cost(rows))),
    }
}

/// Returns the first reason why the witnesses do not show that the rows are the fewest and the
/// cheapest, or none.
fn reason_against(rows: &[Row], points: &[Stamp], witnesses: &[Witness]) -> Option<NotShown>
    ensures reason { MatchOption result
        (IsCertificate rows.now points.now witnesses.now)
        (IsFirstReason rows.now points.now witnesses.now) }
    ensures only { IsCertificate rows.now points.now witnesses.now → IsNone result }
{
    if !do_points_ascend(points) {
        return Some(NotShown::PointsNotAscending);
    }
    if !do_rows_ascend(rows) {
        return Some(NotShown::RowsNotAscending);
    }
    if !is_none_above(rows, points) {
        return Some(NotShown::RowAboveLastPoint);
    }
    for i in 0..witnesses.len() {
        if let Some(reason) = fault_of(rows, points, &witnesses[..i], &witnesses[i]) {
            return Some(reason);
        }
    }
    if witnesses.len() != rows.len() {
        return Some(NotShown::CountsDiffer);
    }
    if !are_in_limits(rows) {
        return Some(NotShown::RowOutOfLimits);
    }
    None
}

/// Returns the first reason against a witness, after those before it, which ascend; or none.
fn fault_of(
    rows: &[Row],
    points: &[Stamp],
    front: &[Witness],
    witness: &Witness,
) -> Option<NotShown>
    requires points { PointsAscend points.now }
    requires rows { RowsAscend rows.now }
    requires front { ChangesAscend front.now }
    ensures { MatchOption result
        (IsAbove front.now witness.now × IsChange rows.now points.now witness.now)
        (IsFault rows.now points.now front.now witness.now) }
{
    if !is_above(front, witness) {
        return Some(NotShown::WitnessNotAscending);
    }
    if !is_at_point(points, witness) {
        return Some(NotShown::NotAtPoint);
    }
    if has_same_answers(rows, witness) {
        return Some(NotShown::SameAnswers);
    }
    None
}

/// Returns whether `at` is a point and `before` is the point before it.
fn is_at_point(points: &[Stamp], witness: &Witness) -> bool
    requires { PointsAscend points.now }
    ensures { IsTrue result ↔ IsAtPoint points.now witness.now }
{
    match points.binary_search(&witness.at) {
        Err(_) => false,
        Ok(place) => match witness.before {
            None => place == 0,
            Some(before) => place > 0 && points[place - 1] == before,
        },
    }
}

/// Returns whether the answers at `at` and at `before` are equal.
fn has_same_answers(rows: &[Row], witness: &Witness) -> bool
    requires { RowsAscend rows.now }
    ensures { IsTrue result
        ↔ (answer rows.now witness.now.key witness.now.at
        ≡ answer_at rows.now witness.now.key witness.now.before) }
{
    let at = value_in(rows, &witness.key, witness.at);
    let before = value_at(rows, &witness.key, witness.before);
    at == before
}
