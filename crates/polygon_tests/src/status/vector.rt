//! The same in a vector.

use super::{edges_come_and_go, split_of_many};
use mvt_status::VecStatus;
use std::process::Abort;
use std::test::Fail;

// Edges that come and go, with a probe for each binary digit of their number, and no visit.
#[test]
fn few_edges(rt: HostRuntime) -> Result<(), Fail> {
    let count = edges_come_and_go(&rt, rt.alloc(), &mut VecStatus::new(rt.alloc()))?;
    assert_eq!(&rt; (count.tests(), count.probes(), count.visits()), (0, 2, 0));
    Ok(())
}

// Many edges, each put in at the end.
#[test]
fn many_edges(rt: HostRuntime) -> Result<(), Fail> {
    let many = split_of_many(&mut VecStatus::new(rt.alloc()), 700)?;
    assert_eq!(&rt; many.split, 700);
    assert!(&rt; 9 <= many.probes && many.probes <= 10);
    assert_eq!(&rt; (many.visits, many.visits_to_insert), (0, 0));
    Ok(())
}
