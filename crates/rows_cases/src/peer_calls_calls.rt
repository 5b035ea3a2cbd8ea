//! The calls of two devices, which are numbers here.
ghost use Rattle.std.specs.Prelude.{◌≡◌, length};
ghost use Rattle.device_types.specs.Numbers.{IsWithin};

use device_types::DeviceId;
use peer_calls::Accepted;
use std::alloc::AllocError;
use std::test::Fail;

/// What the numbers of calls say, a device and a number a line, and at last the calls of both devices. Device 2 has two calls from
/// the fifth line on.
const TOLD: &str = "\
1 1 Next
1 2 Ahead(0)
1 0 Repeat
1 9 Ahead(0)
2 2 Repeat
2 1 Repeat
2 3 Next
2 4 Ahead(2)
2 5 Ahead(2)
2 9 Ahead(2)
1 1 Next
1 3 Ahead(0)
[] [7, 8]
";

/// Tells what the number `k` says of a call of device `d`.
fn tell_arrival(
    accepted: &Accepted<u32>,
    d: u32,
    k: u64,
    told: &mut String,
) -> Result<(), AllocError>
    requires { IsWithin (length accepted.now) d }
{
    let arrival = accepted.arrival(DeviceId(d), k);
    writeln!(told, "{d} {k} {arrival:?}")
}

/// Tells what is said where device 1 has no call.
fn tell_empty(accepted: &Accepted<u32>, told: &mut String) -> Result<(), AllocError>
    requires { length accepted.now ≡ 2 }
{
    tell_arrival(accepted, 1, 1, told)?;
    tell_arrival(accepted, 1, 2, told)?;
    tell_arrival(accepted, 1, 0, told)?;
    tell_arrival(accepted, 1, 9, told)
}

/// Tells what is said where device 2 has two calls and device 1 none, and then these calls.
fn tell_two(accepted: &Accepted<u32>, told: &mut String) -> Result<(), AllocError>
    requires { length accepted.now ≡ 2 }
{
    tell_arrival(accepted, 2, 2, told)?;
    tell_arrival(accepted, 2, 1, told)?;
    tell_arrival(accepted, 2, 3, told)?;
    tell_arrival(accepted, 2, 4, told)?;
    tell_arrival(accepted, 2, 5, told)?;
    tell_arrival(accepted, 2, 9, told)?;
    tell_arrival(accepted, 1, 1, told)?;
    tell_arrival(accepted, 1, 3, told)?;
    let (first, second) = (accepted.calls(DeviceId(1)), accepted.calls(DeviceId(2)));
    writeln!(told, "{first:?} {second:?}")
}

#[test]
fn keeps_each_device_apart(rt: HostRuntime) -> Result<(), Fail> {
    let mut told = String::new(rt.alloc());
    let mut accepted = Accepted::new(rt.alloc(), 2)?;
    tell_empty(&accepted, &mut told)?;
    accepted.accept(DeviceId(2), 7u32)?;
    accepted.accept(DeviceId(2), 8)?;
    tell_two(&accepted, &mut told)?;
    assert_eq!(rt; told.as_str(), TOLD);
    Ok(())
}
