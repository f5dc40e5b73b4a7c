//! Scaled times of arcs and of plugging in.

ghost use Rattle.std.specs.Prelude.{◌≡◌, ◌*◌, ◌^◌, ◌<◌, ◌≤◌};
ghost use Rattle.ev_model.specs.Network.{node_count, plug_time};
ghost use Rattle.label_steps.specs.Arrivals.{drive_time};

use instance_reader::Instance;

/// The scaled time of an arc and of the visit at its end, without plugging in and charging. It
/// takes no memory.
pub fn drive_time(inst: &Instance, from: usize, to: usize) -> u64
    requires left { from < node_count inst.now }
    requires reached { to < node_count inst.now }
    ensures value { result ≡ drive_time inst.now from to }
    ensures small { result ≤ 2 * 10 ^ 18 }
{
    inst.denominator() * (inst.time(from, to) + inst.service(to))
}

/// The scaled time of plugging in at a node. It takes no memory.
pub fn plugging_time(inst: &Instance, node: usize) -> u64
    requires { node < node_count inst.now }
    ensures value { result ≡ inst.now.denominator * plug_time inst.now node }
    ensures small { result ≤ 10 ^ 18 }
{
    inst.denominator() * inst.plug_at(node)
}
