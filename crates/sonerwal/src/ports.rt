// The port's ten calls, as include/sonerwal.h declares them: the list of 32 records that the caller lends, and the port by value, as numbers.
ghost use Rattle.port.specs.Calls.{short_setup, setup_call, submit_call, cancel_call, choose_call, opened_call, open_failed_call, frame_status_call, closed_call, enable_call, disable_call};
ghost use Rattle.port_lent.specs.Given.{time_of, submission_of, withdrawn_of, confirmed_of, failure_of, report_of};
ghost use Rattle.port_lent.specs.Face.{set_up, Seen, Told};

use open_lent::Open;
use port_lent::{Port, PortStep};
use port_parts::Request;

// A port of some phys with a loss time, and an empty list.
#[unsafe(no_mangle)]
pub extern "C" fn sonerwal_port_setup(list: &mut [Request], count: u8, loss: u16) -> PortStep
    ensures { Seen set_up list.old (setup_call list.old count loss) (short_setup count) result list.new }
{
    let s = port::setup(list, count, loss);
    port_lent::set_up(s)
}

// A request for a connection; pbc and awt of head are not looked at.
#[unsafe(no_mangle)]
pub extern "C" fn sonerwal_port_submit(
    list: &mut [Request],
    port: Port,
    head: Open,
    time: u64,
) -> PortStep
    ensures { Told port (λ l p. submit_call l p (submission_of head time)) list.old result list.new }
{
    let p = port_lent::port_of(port);
    let x = port_lent::submission_of(head, time);
    let s = port::submit(list, p, x);
    port_lent::shown(port, s)
}

// The request with a key is not wanted any more.
#[unsafe(no_mangle)]
pub extern "C" fn sonerwal_port_cancel(
    list: &mut [Request],
    port: Port,
    destination: u64,
    protocol: u8,
    tag: u16,
    time: u64,
) -> PortStep
    ensures { Told port (λ l p. cancel_call l p (withdrawn_of destination protocol tag time)) list.old result list.new }
{
    let p = port_lent::port_of(port);
    let x = port_lent::withdrawn_of(destination, protocol, tag, time);
    let s = port::cancel(list, p, x);
    port_lent::shown(port, s)
}

// What to do next.
#[unsafe(no_mangle)]
pub extern "C" fn sonerwal_port_choose(list: &mut [Request], port: Port, time: u64) -> PortStep
    ensures { Told port (λ l p. choose_call l p (time_of time)) list.old result list.new }
{
    let p = port_lent::port_of(port);
    let x = port_lent::time_of(time);
    let s = port::choose(list, p, x);
    port_lent::shown(port, s)
}

// The open of a phy succeeded.
#[unsafe(no_mangle)]
pub extern "C" fn sonerwal_port_opened(
    list: &mut [Request],
    port: Port,
    phy: u8,
    time: u64,
) -> PortStep
    ensures { Told port (λ l p. opened_call l p (confirmed_of phy time)) list.old result list.new }
{
    let p = port_lent::port_of(port);
    let x = port_lent::confirmed_of(phy, time);
    let s = port::opened(list, p, x);
    port_lent::shown(port, s)
}

// The open of a phy failed.
#[unsafe(no_mangle)]
pub extern "C" fn sonerwal_port_open_failed(
    list: &mut [Request],
    port: Port,
    phy: u8,
    reason: u8,
    time: u64,
) -> PortStep
    ensures { Told port (λ l p. open_failed_call l p (failure_of phy reason time)) list.old result list.new }
{
    let p = port_lent::port_of(port);
    let x = port_lent::failure_of(phy, reason, time);
    let s = port::open_failed(list, p, x);
    port_lent::shown(port, s)
}

// The status of a phy's frame.
#[unsafe(no_mangle)]
pub extern "C" fn sonerwal_port_frame_status(
    list: &mut [Request],
    port: Port,
    phy: u8,
    status: u8,
    time: u64,
) -> PortStep
    ensures { Told port (λ l p. frame_status_call l p (report_of phy status time)) list.old result list.new }
{
    let p = port_lent::port_of(port);
    let x = port_lent::report_of(phy, status, time);
    let s = port::frame_status(list, p, x);
    port_lent::shown(port, s)
}

// The connection of a phy is closed.
#[unsafe(no_mangle)]
pub extern "C" fn sonerwal_port_closed(
    list: &mut [Request],
    port: Port,
    phy: u8,
    time: u64,
) -> PortStep
    ensures { Told port (λ l p. closed_call l p (confirmed_of phy time)) list.old result list.new }
{
    let p = port_lent::port_of(port);
    let x = port_lent::confirmed_of(phy, time);
    let s = port::closed(list, p, x);
    port_lent::shown(port, s)
}

// A phy can be used.
#[unsafe(no_mangle)]
pub extern "C" fn sonerwal_port_enable(
    list: &mut [Request],
    port: Port,
    phy: u8,
    time: u64,
) -> PortStep
    ensures { Told port (λ l p. enable_call l p (confirmed_of phy time)) list.old result list.new }
{
    let p = port_lent::port_of(port);
    let x = port_lent::confirmed_of(phy, time);
    let s = port::enable(list, p, x);
    port_lent::shown(port, s)
}

// A phy can't be used any more.
#[unsafe(no_mangle)]
pub extern "C" fn sonerwal_port_disable(
    list: &mut [Request],
    port: Port,
    phy: u8,
    time: u64,
) -> PortStep
    ensures { Told port (λ l p. disable_call l p (confirmed_of phy time)) list.old result list.new }
{
    let p = port_lent::port_of(port);
    let x = port_lent::confirmed_of(phy, time);
    let s = port::disable(list, p, x);
    port_lent::shown(port, s)
}
