//! Which change is about a feature, by one walk over the changes in the order of their features.
ghost use Rattle.std.specs.Prelude.{◌≡◌, ◌↔◌, ℕ, IfNone, IfSome, IsTrue};
ghost use Rattle.mvt_splice.specs.Splice.{Fate, fate_in, fate_of, AreChangesInOrder, IsBefore};
ghost use Rattle.mvt_splice.specs.Calls.Fates.{AreChangesLeft, BeginFrom};

use crate::change::Change;

/// Whether changes are in the order of their features, by layer and then by feature, and no two are
/// about one feature.
pub fn are_in_order(changes: &[Change]) -> bool
    ensures { IsTrue result ↔ AreChangesInOrder changes.now }
{
    'seen: for i in 1..changes.len() {
        let change = &changes[i];
        if !is_before(&changes[i - 1], change.layer, change.feature) {
            return false;
        }
    }
    true
}

/// The changes without those at the front that are about earlier features than the one of these
/// ordinals.
pub(crate) fn changes_from(changes: &[Change], layer: usize, feature: usize) -> &[Change]
    requires { AreChangesInOrder changes.now }
    ensures left { AreChangesLeft changes.now layer feature result.now }
    ensures begin { BeginFrom result.now layer feature }
{
    let mut first = 0;
    'passed: while first < changes.len() && is_before(&changes[first], layer, feature) {
        first += 1;
    }
    &changes[first..]
}

/// Whether a change is about an earlier feature than the one of these ordinals.
fn is_before(change: &Change, layer: usize, feature: usize) -> bool
    ensures { IsTrue result ↔ IsBefore change.now layer feature }
{
    change.layer < layer || change.layer == layer && change.feature < feature
}

/// The change about a feature, of changes of which none is about an earlier one.
pub(crate) fn change_of(changes: &[Change], layer: usize, feature: usize) -> Option<&Change>
    requires in_order { AreChangesInOrder changes.now }
    requires begin { BeginFrom changes.now layer feature }
    ensures there { IfSome result (λ change.
        fate_in changes.now layer feature ≡ fate_of change.now.geometry) }
    ensures none { IfNone result (fate_in changes.now layer feature ≡ Fate.stays) }
{
    let change = changes.first()?;
    if change.layer == layer && change.feature == feature {
        Some(change)
    } else {
        None
    }
}

/// Whether there is a change in a layer, of changes of which none is about an earlier layer.
pub(crate) fn has_change_in(changes: &[Change], layer: usize) -> bool
    requires in_order { AreChangesInOrder changes.now }
    requires begin { BeginFrom changes.now layer 0 }
    ensures some { IsTrue result → ¬ ((feature : ℕ) → fate_in changes.now layer feature ≡ Fate.stays) }
    ensures none { ¬ IsTrue result → (feature : ℕ) → fate_in changes.now layer feature ≡ Fate.stays }
{
    match changes.first() {
        Some(change) => change.layer == layer,
        None => false,
    }
}
