//! Limits of merging, by a table.

use bintree_addr::{Rank, Tri};
use deferred_loop::Limit;
use std::test::Fail;

// Whether a diamond of this priority and address may be merged: after 5 of priority 7, and where none is wanted.
#[test]
fn a_limit_is_met_after_the_leaf_or_at_priority_0(rt: HostRuntime) -> Result<(), Fail> {
    let leaf = Limit::After(Rank {
        p: 7,
        tri: Tri::new(5).ok_or("an address")?,
    });
    let cases = [
        (8, 9, false, false),
        (7, 4, false, false),
        (7, 5, false, false),
        (7, 6, true, false),
        (6, 4, true, false),
        (0, 4, true, true),
    ];
    for (p, number, after, zero) in cases {
        let diamond = Rank {
            p,
            tri: Tri::new(number).ok_or("an address")?,
        };
        assert_eq!(rt; leaf.is_met(&diamond), after, "{number} of {p}");
        assert_eq!(rt; Limit::Zero.is_met(&diamond), zero, "{number} of {p}");
        assert!(rt; Limit::Over.is_met(&diamond));
    }
    Ok(())
}
