//! A counter, and why a counted call stops.
use memory::NoMemory;
use steps::{Spent, Steps, Stop};

// Whether a counter has so many steps behind it, of two.
fn has_spent(steps: &Steps, spent: u64) -> bool {
    steps.spent() == spent && steps.budget() == 2
}

// Whether two steps are counted, and no further one.
fn counts_two(steps: &mut Steps) -> bool {
    has_spent(steps, 0)
        && steps.tick() == Ok(())
        && steps.tick() == Ok(())
        && steps.tick() == Err(Spent)
        && steps.tick() == Err(Spent)
        && has_spent(steps, 2)
}

#[test]
fn counts_up_to_its_budget_and_no_further(rt: HostRuntime) {
    let mut steps = Steps::new(2);
    assert!(rt; counts_two(&mut steps));
    assert_eq!(rt; Stop::from(Spent), Stop::Spent);
    assert_eq!(rt; Stop::from(NoMemory), Stop::NoMemory);
}
