//! That one walk says yes of tiles as writers make them. No clause says so: it may say nothing of any.
use crate::device::bytes_of;
use mvt_tile::{FeatureBytes, FeatureTest, Seen, passes_one_walk};
use std::test::Fail;

/// A rule that each feature keeps.
#[derive(Drop)]
struct NoRule;

impl FeatureTest for NoRule {
    ghost IsKept = { λ rule feature_record. Unit {0} };

    fn keeps(&mut self, _feature: &FeatureBytes<'_>) -> bool {
        true
    }
}

#[test]
fn says_yes(rt: HostRuntime) -> Result<(), Fail> {
    for tile in [
        // no layer
        "",
        // the name, a feature (id, tags, type, geometry), a key, a value, the extent and the version
        "1a 1f 0a 01 61 12 0d 08 07 12 02 00 00 18 01 22 03 09 32 22 1a 01 6b 22 03 0a 01 76 28 80 20 78 02",
        // the version first, keys and values before the feature, whose id comes last
        "1a 1f 78 02 0a 01 61 28 80 20 1a 01 6b 22 03 0a 01 76 12 0d 18 01 12 02 00 00 22 03 09 32 22 08 07",
        // a value of each kind: text, float, double, int, uint, sint, bool
        "1a 2c 78 02 0a 01 61 22 03 0a 01 76 22 05 15 00 00 80 3f 22 09 19 00 00 00 00 00 00 f0 3f \
         22 02 20 01 22 02 28 01 22 02 30 01 22 02 38 01",
    ] {
        let bytes = bytes_of(&rt, tile)?;
        let mut seen = Seen::nothing();
        assert!(rt;
            passes_one_walk(rt.alloc(), &bytes, &mut NoRule, &mut seen)?,
            "of {tile}"
        );
    }
    Ok(())
}
