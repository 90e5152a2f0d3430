// The port's ten calls, as include/sonerwal.h declares them: the list of 32 records that the caller lends, and the port by value, as numbers.
ghost use Rattle.port.specs.Calls.{short_setup, setup_call, submit_call, cancel_call, choose_call, opened_call, open_failed_call, frame_status_call, closed_call, enable_call, disable_call};
ghost use Rattle.port_lent.specs.Given.{time_of, submission_of, withdrawn_of, confirmed_of, failure_of, report_of};
ghost use Rattle.port_lent.specs.Face.{set_up, Seen, Told};

use open_lent::Open;
use port_lent::{Port, PortStep};
use port_parts::Request;

// A port of some phys with a loss time, and an empty list.
#[unsafe(no_mangle)]
pub extern "C" fn sonerwal_port_setup(list: &mut [Request], count: u8, loss: u16) -> PortStep
    ensures { Seen set_up list.old (setup_call list.old count loss) (short_setup count) result list.new }
{
    sonerwal::ports::sonerwal_port_setup(list, count, loss)
}

// A request for a connection; pbc and awt of head are not looked at.
#[unsafe(no_mangle)]
pub extern "C" fn sonerwal_port_submit(
    list: &mut [Request],
    port: Port,
    head: Open,
    time: u64,
) -> PortStep
    ensures { Told port (λ l p. submit_call l p (submission_of head time)) list.old result list.new }
{
    sonerwal::ports::sonerwal_port_submit(list, port, head, time)
}

// The request with a key is not wanted any more.
#[unsafe(no_mangle)]
pub extern "C" fn sonerwal_port_cancel(
    list: &mut [Request],
    port: Port,
    destination: u64,
    protocol: u8,
    tag: u16,
    time: u64,
) -> PortStep
    ensures { Told port (λ l p. cancel_call l p (withdrawn_of destination protocol tag time)) list.old result list.new }
{
    sonerwal::ports::sonerwal_port_cancel(list, port, destination, protocol, tag, time)
}

// What to do next.
#[unsafe(no_mangle)]
pub extern "C" fn sonerwal_port_choose(list: &mut [Request], port: Port, time: u64) -> PortStep
    ensures { Told port (λ l p. choose_call l p (time_of time)) list.old result list.new }
{
    sonerwal::ports::sonerwal_port_choose(list, port, time)
}

// The open of a phy succeeded.
#[unsafe(no_mangle)]
pub extern "C" fn sonerwal_port_opened(
    list: &mut [Request],
    port: Port,
    phy: u8,
    time: u64,
) -> PortStep
    ensures { Told port (λ l p. opened_call l p (confirmed_of phy time)) list.old result list.new }
{
    sonerwal::ports::sonerwal_port_opened(list, port, phy, time)
}

// The open of a phy failed.
#[unsafe(no_mangle)]
pub extern "C" fn sonerwal_port_open_failed(
    list: &mut [Request],
    port: Port,
    phy: u8,
    reason: u8,
    time: u64,
) -> PortStep
    ensures { Told port (λ l p. open_failed_call l p (failure_of phy reason time)) list.old result list.new }
{
    sonerwal::ports::sonerwal_port_open_failed(list, port, phy, reason, time)
}

// The status of a phy's frame.
#[unsafe(no_mangle)]
pub extern "C" fn sonerwal_port_frame_status(
    list: &mut [Request],
    port: Port,
    phy: u8,
    status: u8,
    time: u64,
) -> PortStep
    ensures { Told port (λ l p. frame_status_call l p (report_of phy status time)) list.old result list.new }
{
    sonerwal::ports::sonerwal_port_frame_status(list, port, phy, status, time)
}

// The connection of a phy is closed.
#[unsafe(no_mangle)]
pub extern "C" fn sonerwal_port_closed(
    list: &mut [Request],
    port: Port,
    phy: u8,
    time: u64,
) -> PortStep
    ensures { Told port (λ l p. closed_call l p (confirmed_of phy time)) list.old result list.new }
{
    sonerwal::ports::sonerwal_port_closed(list, port, phy, time)
}

// A phy can be used.
#[unsafe(no_mangle)]
pub extern "C" fn sonerwal_port_enable(
    list: &mut [Request],
    port: Port,
    phy: u8,
    time: u64,
) -> PortStep
    ensures { Told port (λ l p. enable_call l p (confirmed_of phy time)) list.old result list.new }
{
    sonerwal::ports::sonerwal_port_enable(list, port, phy, time)
}

// A phy can't be used any more.
#[unsafe(no_mangle)]
pub extern "C" fn sonerwal_port_disable(
    list: &mut [Request],
    port: Port,
    phy: u8,
    time: u64,
) -> PortStep
    ensures { Told port (λ l p. disable_call l p (confirmed_of phy time)) list.old result list.new }
{
    sonerwal::ports::sonerwal_port_disable(list, port, phy, time)
}
