//! Instances that are made from a number.

use instance_maker::{MakerFault, made_instance, made_texts_are_instances};

#[test]
fn a_made_instance_is_read(rt: HostRuntime) {
    made_texts_are_instances();
    let made = made_instance(rt.alloc(), 7, 2, 1).expect(&rt, "an instance");
    assert_eq!(rt; made.instance.nodes(), 4);
    assert_eq!(rt; made.instance.denominator(), 136);
    assert_eq!(rt; made.instance.max_q(), 1600);
    let refused = made_instance(rt.alloc(), 0, 1, 0).err();
    assert_eq!(rt; refused, Some(MakerFault::Range));
}
