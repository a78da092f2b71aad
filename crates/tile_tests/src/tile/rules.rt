//! The rules between the parts of a tile, and a further one.
ghost use Rattle.std.specs.Prelude.{◌≡◌, ◌≢◌, Some};
ghost use Rattle.mvt_fault.specs.declared.command.CommandCode.{CommandCode};
ghost use Rattle.mvt_fault.specs.declared.fault.Fault.{Fault};

use mvt_fault::{CommandCode, Fault, TagCode};
use mvt_tile::{FeatureBytes, FeatureRule, Kind, rule_fault, rule_faults, wire_fault};
use std::alloc::{AllocError, Global};

/// A rule that is broken by a feature of unknown type, at the first number of its geometry. It
/// counts the features that it is called for.
#[derive(Drop)]
struct TypesAreKnown {
    asked: usize,
}

impl FeatureRule for TypesAreKnown {
    ghost IsBroken = { λ it layer feature fault. (it.kind ≡ 0)
        × (fault ≡ Fault.Command CommandCode.OtherCommand layer feature 0) };

    ghost IsFree = { λ fault. ⊥ };

    ghost IsKept = { λ it. it.kind ≢ 0 };

    fn find_fault(
        &mut self,
        _alloc: Global,
        feature: &FeatureBytes<'_>,
        layer_index: usize,
        feature_index: usize,
        found: &mut Option<Fault>,
    ) -> Result<(), AllocError> {
        self.asked = self.asked.saturating_add(1);
        if let Kind::Unknown = feature.kind() {
            *found = command(layer_index, feature_index);
        }
        Ok(())
    }
}

fn command(layer: usize, feature: usize) -> Option<Fault>
    ensures { result ≡ Some (Fault.Command CommandCode.OtherCommand layer feature 0) }
{
    Some(Fault::Command {
        code: CommandCode::OtherCommand,
        layer,
        feature,
        index: 0,
    })
}

/// Whether the bytes are a tile, and this is its first fault by its rules and that further one.
fn is_first_fault(
    alloc: Global,
    bytes: &[u8],
    rule: &mut TypesAreKnown,
    fault: Option<Fault>,
) -> bool {
    match wire_fault(bytes) {
        Some(_) => false,
        None => rule_fault(alloc, bytes, rule) == Ok(fault),
    }
}

/// Whether the bytes are a tile, and these are its faults by its rules and that further one.
fn are_faults(alloc: Global, bytes: &[u8], rule: &mut TypesAreKnown, expected: &[Fault]) -> bool {
    match wire_fault(bytes) {
        Some(_) => false,
        None => match rule_faults(alloc, bytes, rule) {
            Ok(faults) => faults.as_slice() == expected,
            Err(_) => false,
        },
    }
}

/// The fault of tags.
fn tags(code: TagCode, layer: usize, feature: usize, index: usize) -> Fault {
    Fault::Tag {
        code,
        layer,
        feature,
        index,
    }
}

/// The fault of a feature of unknown type.
fn unknown_type(layer: usize, feature: usize) -> Fault {
    Fault::Command {
        code: CommandCode::OtherCommand,
        layer,
        feature,
        index: 0,
    }
}

// Layers of one key and two values. The first fault is that of the first feature that has one.
#[test]
fn tags_of_several_features(rt: HostRuntime) {
    let mut rule = TypesAreKnown { asked: 0 };
    for (bytes, code, layer, index) in [
        // tags 0 0 in the first layer; 0 0 and 0 2 in the second
        (
            b"\x1a\x1d\x78\x02\x0a\x01\x61\x12\x0b\x12\x02\x00\x00\x18\x01\x22\x03\x09\x32\x22\x1a\x01\x6b\x22\x02\x38\x01\x22\x02\x28\x05\x1a\x2a\x78\x02\x0a\x01\x62\x12\x0b\x12\x02\x00\x00\x18\x01\x22\x03\x09\x32\x22\x12\x0b\x12\x02\x00\x02\x18\x01\x22\x03\x09\x32\x22\x1a\x01\x6b\x22\x02\x38\x01\x22\x02\x28\x05".as_slice(),
            TagCode::NoValue,
            1,
            1,
        ),
        // tags 0 0, 1 0 and 0 in the first layer; 0 in the second
        (
            b"\x1a\x36\x78\x02\x0a\x01\x61\x12\x0b\x12\x02\x00\x00\x18\x01\x22\x03\x09\x32\x22\x12\x0b\x12\x02\x01\x00\x18\x01\x22\x03\x09\x32\x22\x12\x0a\x12\x01\x00\x18\x01\x22\x03\x09\x32\x22\x1a\x01\x6b\x22\x02\x38\x01\x22\x02\x28\x05\x1a\x1c\x78\x02\x0a\x01\x62\x12\x0a\x12\x01\x00\x18\x01\x22\x03\x09\x32\x22\x1a\x01\x6b\x22\x02\x38\x01\x22\x02\x28\x05",
            TagCode::NoKey,
            0,
            0,
        ),
    ] {
        let fault = Fault::Tag {
            code,
            layer,
            feature: 1,
            index,
        };
        assert!(rt; is_first_fault(rt.alloc(), bytes, &mut rule, Some(fault)));
    }
}

// One rule serves the features of all layers, and keeps what it noted: two layers, the first with
// one point and the second with two.
#[test]
fn one_rule_for_all_features(rt: HostRuntime) {
    let bytes =
        b"\x1a\x0e\x78\x02\x0a\x01\x61\x12\x07\x18\x01\x22\x03\x09\x32\x22\x1a\x17\x78\x02\x0a\x01\x62\x12\x07\x18\x01\x22\x03\x09\x32\x22\x12\x07\x18\x01\x22\x03\x09\x32\x22";
    let mut rule = TypesAreKnown { asked: 0 };
    assert!(rt; is_first_fault(rt.alloc(), bytes, &mut rule, None));
    assert!(rt; rule.asked == 3);
    assert!(rt; are_faults(rt.alloc(), bytes, &mut rule, &[]));
    assert!(rt; rule.asked == 6);
}

// Two layers whose one key and two values come after their features: in the first the tags 0 0; 1 0,
// which is no key; a feature of unknown type; and one of unknown type whose tags are 0 alone. In the
// second the tags 0 2, which is no value, and 0 0.
#[test]
fn faults_of_all_features(rt: HostRuntime) {
    let bytes =
        b"\x1a\x3f\x78\x02\x0a\x01\x61\x12\x0b\x12\x02\x00\x00\x18\x01\x22\x03\x09\x32\x22\x12\x0b\x12\x02\x01\x00\x18\x01\x22\x03\x09\x32\x22\x12\x07\x18\x00\x22\x03\x09\x32\x22\x12\x0a\x12\x01\x00\x18\x00\x22\x03\x09\x32\x22\x1a\x01\x6b\x22\x02\x38\x01\x22\x02\x28\x05\x1a\x2a\x78\x02\x0a\x01\x62\x12\x0b\x12\x02\x00\x02\x18\x01\x22\x03\x09\x32\x22\x12\x0b\x12\x02\x00\x00\x18\x01\x22\x03\x09\x32\x22\x1a\x01\x6b\x22\x02\x38\x01\x22\x02\x28\x05";
    let faults = [
        tags(TagCode::NoKey, 0, 1, 0),
        unknown_type(0, 2),
        tags(TagCode::OddLength, 0, 3, 1),
        tags(TagCode::NoValue, 1, 0, 1),
    ];
    let mut rule = TypesAreKnown { asked: 0 };
    assert!(rt; are_faults(rt.alloc(), bytes, &mut rule, &faults));
}

// A layer of version 1 with a feature of unknown type, and one of version 2 whose second feature is
// of unknown type.
#[test]
fn faults_after_another_version(rt: HostRuntime) {
    let bytes =
        b"\x1a\x0e\x78\x01\x0a\x01\x61\x12\x07\x18\x00\x22\x03\x09\x32\x22\x1a\x17\x78\x02\x0a\x01\x62\x12\x07\x18\x01\x22\x03\x09\x32\x22\x12\x07\x18\x00\x22\x03\x09\x32\x22";
    let faults = [
        Fault::Version { layer: 0 },
        unknown_type(0, 0),
        unknown_type(1, 1),
    ];
    let mut rule = TypesAreKnown { asked: 0 };
    assert!(rt; are_faults(rt.alloc(), bytes, &mut rule, &faults));
}

// Layers named a, a, b, a and a, of which the last has version 1. The first and the fourth have a
// feature of unknown type.
#[test]
fn faults_of_several_names(rt: HostRuntime) {
    let bytes =
        b"\x1a\x0e\x78\x02\x0a\x01\x61\x12\x07\x18\x00\x22\x03\x09\x32\x22\x1a\x05\x78\x02\x0a\x01\x61\x1a\x05\x78\x02\x0a\x01\x62\x1a\x0e\x78\x02\x0a\x01\x61\x12\x07\x18\x00\x22\x03\x09\x32\x22\x1a\x05\x78\x01\x0a\x01\x61";
    let faults = [
        Fault::Name {
            first: 0,
            second: 1,
        },
        Fault::Name {
            first: 0,
            second: 3,
        },
        Fault::Version { layer: 4 },
        unknown_type(0, 0),
        unknown_type(3, 0),
    ];
    let mut rule = TypesAreKnown { asked: 0 };
    assert!(rt; are_faults(rt.alloc(), bytes, &mut rule, &faults));
}
