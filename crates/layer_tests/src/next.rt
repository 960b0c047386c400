//! Which of several children's items is taken next.

use child_events::pick;

#[test]
fn an_item_waits_for_those_that_may_come_before_it(rt: HostRuntime) {
    assert_eq!(rt; pick(&[None, Some(5)], 5), None);
    assert_eq!(rt; pick(&[None, Some(5)], 6), Some(1));
    assert_eq!(rt; pick(&[Some(6), Some(5)], 6), Some(1));
    assert_eq!(rt; pick(&[Some(5), Some(5)], 5), Some(0));
    assert_eq!(rt; pick(&[Some(5)], 5), Some(0));
    assert_eq!(rt; pick(&[None], 9), None);
    assert_eq!(rt; pick(&[], 9), None);
}
