use crate::comparing::same;
use flusher::Plan;

#[test]
fn round_and_round(rt: HostRuntime) {
    let mut pending = [None; 9];
    let mut plan = Plan::new();
    same(&rt, plan.next(&pending), None);
    for block in [7, 0, 8] {
        pending[block] = Some(());
    }
    for block in [0, 7, 8, 0, 7] {
        same(&rt, plan.next(&pending), Some(block));
    }
    pending[8] = None;
    same(&rt, plan.next(&pending), Some(0));
}
