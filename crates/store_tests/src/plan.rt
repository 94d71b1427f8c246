use crate::card::TRIAL;
use rules::choice::greatest;
use rules::plan::Plan;

// The threshold sets the quota while the idle limit is small, and the idle limit does when it is great.
#[test]
fn quota_of_the_trial_card(rt: HostRuntime) {
    assert_eq!(rt; TRIAL.capacity(4), 8);
    assert_eq!(rt; TRIAL.quota(4), 7);
    assert_eq!(rt; Plan { idle: 1, ..TRIAL }.quota(4), 7);
    assert_eq!(rt; Plan { idle: 2, ..TRIAL }.quota(4), 6);
    assert_eq!(rt; Plan { idle: 5, ..TRIAL }.quota(4), 3);
}

// Among two greatest counts the first one is chosen, and among none there is none.
#[test]
fn greatest_of_some_counts(rt: HostRuntime) {
    let counts = [2, 5, 5, 1];
    assert_eq!(rt; greatest(&counts), Some(1));
    assert_eq!(rt; greatest(&counts[2..4]), Some(0));
    assert_eq!(rt; greatest(&counts[0..0]), None);
}
