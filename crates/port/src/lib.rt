// Document 01, 'Port': the ten calls over the list of 32 records that the caller lends. Each looks at every record once, loads
// one, and leaves every record as its core says.
#![tactic(auto)]

mod leaves;
mod scans;

ghost use Rattle.std.specs.Prelude.{◌≡◌};
ghost use Rattle.port.specs.Calls.{short_setup, Called, on_phy, setup_call, submit_call, cancel_call, choose_call, opened_call, open_failed_call, frame_status_call, closed_call, enable_call, disable_call};
ghost use Rattle.port.specs.Calls as calls;
ghost use Rattle.port_rules.specs.Rules.{rules};
ghost use Rattle.port_rows.specs.declared.Done.{Done as Left};

use port_parts::{Asked, NO_SLOT, Port, Request};
use port_rows::{Answer, Confirmed, Done, Failure, Report, Submission, Withdrawn};

// What a call gives: its answer, and the port after it.
#[derive(Clone, Copy)]
pub struct Stepped {
    pub answer: Answer,
    pub port: Port,
}

// What a choose gives.
#[repr(C)]
#[derive(Clone, Copy)]
pub struct Time {
    pub now: u64,
}

// A port of some phys with a loss time, and an empty list. It asks nothing of the records.
pub fn setup(list: &mut [Request], count: u8, loss: u16) -> Stepped
    ensures { Called list.old (setup_call list.old count loss) (short_setup count) result list.new }
{
    if list.len() != 32 {
        return leaves::short_setup(count);
    }
    leaves::left(list, port_core::setup_core(count, loss))
}

// 01 FORM.8: A lent slice of request records; a few thin calls over a covered core that works on one record and numbers.
// A request for a connection.
pub fn submit(list: &mut [Request], p: Port, x: Submission) -> Stepped
    ensures { Called list.old (submit_call list.old p x) (calls.short p) result list.new }
{
    let Ok(records) = <&[Request; 32]>::try_from(&*list) else {
        return leaves::short(p);
    };
    let h = x.head;
    let (kept, room) = scans::survey(records, p, port_core::no_room(), |a, r, i| {
        port_core::room_step(a, r, i, h)
    });
    leaves::left(list, port_core::submit_core(p, kept, room, x))
}

// The request with a key is not wanted any more.
pub fn cancel(list: &mut [Request], p: Port, x: Withdrawn) -> Stepped
    ensures { Called list.old (cancel_call list.old p x) (calls.short p) result list.new }
{
    let Ok(records) = <&[Request; 32]>::try_from(&*list) else {
        return leaves::short(p);
    };
    let key = x.key;
    let (kept, slot) = scans::survey(records, p, NO_SLOT, |a, r, i| {
        port_core::key_step(a, r, i, key)
    });
    let r = scans::load(records, slot);
    leaves::left(list, port_core::cancel_core(p, r, kept, slot, x))
}

// What to do next.
pub fn choose(list: &mut [Request], p: Port, x: Time) -> Stepped
    ensures { Called list.old (choose_call list.old p x) (calls.short p) result list.new }
{
    let Ok(records) = <&[Request; 32]>::try_from(&*list) else {
        return leaves::short(p);
    };
    let phys = p.phys;
    let asked = Asked { phys, now: x.now };
    let (kept, pick) = scans::survey(records, p, port_parts::no_pick(), |a, r, i| {
        port_parts::chosen_step(a, r, i, asked)
    });
    let r = scans::load(records, pick.slot);
    leaves::left(list, port_core::choose_core(p, r, kept, pick, x.now))
}

// A call about a phy: its core on the request that the phy names.
fn about<F: FnOnce(Request, bool) -> Done>(
    list: &mut [Request],
    p: Port,
    phy: u8,
    core: F,
) -> Stepped
    requires { F.IsAlwaysCallable core }
    ensures { (d : Left) → ((e : Left) → F.post core (on_phy list.old p phy) (rules p list.old) e → e ≡ d) → Called list.old d (calls.short p) result list.new }
{
    let Ok(records) = <&[Request; 32]>::try_from(&*list) else {
        return leaves::short(p);
    };
    let (kept, ()) = scans::survey(records, p, (), |_, _, _| ());
    let r = scans::load(records, port_core::phy_at(p, phy).slot);
    leaves::left(list, core(r, kept))
}

// The open of a phy succeeded.
pub fn opened(list: &mut [Request], p: Port, x: Confirmed) -> Stepped
    ensures { Called list.old (opened_call list.old p x) (calls.short p) result list.new }
{
    about(
        list,
        p,
        x.phy,
        |r, kept| port_core::opened_core(p, r, kept, x),
    )
}

// The open of a phy failed.
pub fn open_failed(list: &mut [Request], p: Port, x: Failure) -> Stepped
    ensures { Called list.old (open_failed_call list.old p x) (calls.short p) result list.new }
{
    about(
        list,
        p,
        x.phy,
        |r, kept| port_core::open_failed_core(p, r, kept, x),
    )
}

// The status of a phy's frame.
pub fn frame_status(list: &mut [Request], p: Port, x: Report) -> Stepped
    ensures { Called list.old (frame_status_call list.old p x) (calls.short p) result list.new }
{
    about(
        list,
        p,
        x.phy,
        |r, kept| port_core::frame_status_core(p, r, kept, x),
    )
}

// The connection of a phy is closed.
pub fn closed(list: &mut [Request], p: Port, x: Confirmed) -> Stepped
    ensures { Called list.old (closed_call list.old p x) (calls.short p) result list.new }
{
    about(
        list,
        p,
        x.phy,
        |r, kept| port_core::closed_core(p, r, kept, x),
    )
}

// A phy can be used.
pub fn enable(list: &mut [Request], p: Port, x: Confirmed) -> Stepped
    ensures { Called list.old (enable_call list.old p x) (calls.short p) result list.new }
{
    about(
        list,
        p,
        x.phy,
        |r, kept| port_core::enable_core(p, r, kept, x),
    )
}

// A phy can't be used any more.
pub fn disable(list: &mut [Request], p: Port, x: Confirmed) -> Stepped
    ensures { Called list.old (disable_call list.old p x) (calls.short p) result list.new }
{
    about(
        list,
        p,
        x.phy,
        |r, kept| port_core::disable_core(p, r, kept, x),
    )
}
