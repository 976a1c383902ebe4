//! What is put, taken and moved by some calls, as worked out by hand.

use hp_caches::{Plan, PlanError, PutError, Stock, is_each_once, sum_of};
use std::test::*;

#[test]
fn moves_what_is_in_a_cache(rt: HostRuntime) -> Result<(), Fail> {
    let alloc = rt.alloc();
    let mut stock = Stock::new(alloc, 2)?;
    assert!(rt; stock.put(1, 7) == Err(PutError::Closed));
    stock.open(0);
    stock.open(1);
    for item in 0..3 {
        assert!(rt; stock.put(1, item).is_ok());
    }
    assert!(rt; stock.put(0, 3).is_ok());
    assert!(rt;
        stock.put(2, 4) == Err(PutError::Closed),
        "there is no third cache"
    );
    assert!(rt; stock.take(1)? == Some(0));
    stock.close(1);
    assert!(rt; stock.put(1, 4) == Err(PutError::Closed));
    assert!(rt; stock.take(1)?.is_none());
    let all = stock.all(alloc)?;
    assert!(rt;
        all.as_slice() == [0, 1, 2, 3].as_slice(),
        "taken, then the list, then the caches"
    );
    assert!(rt; sum_of(&all) == 6);
    assert!(rt; is_each_once(alloc, &all, 4)?);
    assert!(rt; !is_each_once(alloc, &all, 3)?, "one is too many");
    assert!(rt; !is_each_once(alloc, &all, 5)?, "one is missing");
    assert!(rt; !is_each_once(alloc, &[0, 1, 1], 3)?, "one stands twice");
    Ok(())
}

#[test]
fn a_plan_counts_its_events(rt: HostRuntime) -> Result<(), Fail> {
    assert!(rt; Plan::new(0, 1, 1) == Err(PlanError::Workers));
    assert!(rt; Plan::new(1, 10_001, 1) == Err(PlanError::Items));
    assert!(rt; Plan::new(1, 1, 1_001) == Err(PlanError::Rounds));
    let Ok(plan) = Plan::new(2, 100, 1) else {
        return Err(Fail::from("a plan within its ranges"));
    };
    assert!(rt; plan.count() == 200);
    assert!(rt; plan.first_item(1) == 100);
    assert!(rt; plan.events() == 14 + 400 + 3 + 11 + 52);
    Ok(())
}
