//! Loads of three servers, and the shifts that balance them.
ghost use Rattle.std.specs.Prelude.{◌≡◌, ◌≤◌};

use hm_balance::plan;
use hm_names::{Host, ServerName};
use std::alloc::{AllocGlobal, Global};
use std::process::Abort;
use std::test::Fail;

// The server of a host, at a port.
fn server<R: Abort + AllocGlobal>(rt: &R, host: &[u8], port: u16) -> ServerName
    requires { 1 ≤ port }
    ensures { result.port ≡ port }
{
    ServerName {
        host: Host::of(rt.alloc(), host).expect(rt, "a host"),
        port,
        start: 1,
    }
}

// The shifts of three servers with these loads, by the ports of the servers.
fn ports<R: Abort + AllocGlobal>(rt: &R, loads: [u32; 3]) -> Result<Vec<(u16, u16)>, Fail> {
    let loads = [
        (server(rt, b"h1", 1), loads[0]),
        (server(rt, b"h2", 2), loads[1]),
        (server(rt, b"h3", 3), loads[2]),
    ];
    let shifts = plan(rt.alloc(), &loads)?;
    let mut ports = Vec::new(rt.alloc());
    for shift in &shifts {
        ports.push((shift.from.port, shift.to.port))?;
    }
    Ok(ports)
}

#[test]
fn plan_of_loads(rt: HostRuntime) -> Result<(), Fail> {
    let rows: [([u32; 3], &[(u16, u16)]); 7] = [
        ([5, 0, 1], &[(1, 2), (1, 2), (1, 3)]),
        ([1, 3, 3], &[(3, 1)]),
        ([0, 0, 1], &[]),
        ([0, 0, 2], &[(3, 1)]),
        ([2, 2, 2], &[]),
        ([2, 5, 5], &[(2, 1), (3, 1)]),
        ([4294967295, 4294967295, 4294967294], &[]),
    ];
    for (loads, wanted) in rows {
        assert_eq!(rt; ports(&rt, loads)?.as_slice(), wanted);
    }
    assert_eq!(rt; plan(rt.alloc(), &[])?.len(), 0);
    Ok(())
}
