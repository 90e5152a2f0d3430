// Document 01, 'Port': which request goes next, and on which phy.
ghost use Rattle.std.specs.Prelude.{◌≡◌, ◌≤◌, ◌<◌};
ghost use Rattle.port_parts.specs.Choice.{joined_of, free_sets, way_for, is_ready, no_pick, picked, earlier_of, chosen_step};
ghost use Rattle.port_parts.specs.Choice as choice;

use crate::{
    Asked, Phy, Pick, Request, SET, Sets, UNCLOSED, Way, parts, phy_stage, request_stage, step,
};
use open_frame::Head;

// Whether the phy is connected to the destination and protocol of h.
fn reaches(p: Phy, h: Head) -> bool
    ensures { result ≡ choice.reaches p h }
{
    (p.destination == h.destination) & (p.protocol == h.protocol)
}

// The sets of the phys from p on, where `s` are those of the phys behind it.
fn joined(s: Sets, p: Phy, h: Head) -> Sets
    requires { (s.sends < 128) × ((s.opens < 128) × (s.closes < 128)) }
    ensures { result ≡ joined_of s p h }
{
    let idle = p.stage == phy_stage::IDLE;
    let there = reaches(p, h);
    Sets {
        sends: s.sends * 2 + u8::from(idle & there),
        opens: s.opens * 2 + u8::from(p.stage == phy_stage::UNCONNECTED),
        closes: s.closes * 2 + u8::from(idle & !there),
    }
}

// One pass over the phys, from the last to the first. By number, since behind `rev` the proof doesn't know which phy comes next.
fn free_sets(phys: [Phy; 8], h: Head) -> Sets
    ensures { result ≡ free_sets phys h }
{
    let mut s = Sets::default();
    for k in 0..8 {
        s = joined(s, phys[7 - k], h);
    }
    s
}

// 01 FORM.2: Free phys as a bit set; trailing zeros pick the lowest, a count of ones tells how many.
// The first rule that has a phy, and the lowest phy that it has.
fn way_for(phys: [Phy; 8], r: Request) -> Way
    ensures { result ≡ way_for phys r }
{
    let free = free_sets(phys, r.head);
    if 0 < free.sends.count_ones() {
        return Way {
            step: step::SENDS,
            phy: free.sends.trailing_zeros() as u8,
        };
    }
    if 0 < free.opens.count_ones() {
        return Way {
            step: step::OPENS,
            phy: free.opens.trailing_zeros() as u8,
        };
    }
    if (r.closed == UNCLOSED) & (0 < free.closes.count_ones()) {
        return Way {
            step: step::CLOSES,
            phy: free.closes.trailing_zeros() as u8,
        };
    }
    Way {
        step: step::NOTHING,
        phy: 0,
    }
}

fn is_ready(r: Request, now: u64) -> bool
    ensures { result ≡ is_ready r now }
{
    (r.stage == request_stage::WAITING)
        & (!(r.retry.set == SET) | parts::reached(r.retry.at, 15, now))
}

pub fn no_pick() -> Pick
    ensures { result ≡ no_pick }
{
    Pick {
        step: step::NOTHING,
        phy: 0,
        slot: 0,
        at: 0,
    }
}

// What can be done for the request at place i.
#[tactic(auto, unfolding(crate::specs::Choice::picked))]
fn picked(x: Asked, r: Request, i: usize) -> Pick
    ensures { result ≡ picked x r i }
{
    if !is_ready(r, x.now) {
        return no_pick();
    }
    let phys = x.phys;
    let way = way_for(phys, r);
    Pick {
        step: way.step,
        phy: way.phy,
        slot: parts::slot_at(i),
        at: r.submitted,
    }
}

// The earlier of two, a where they are even.
fn earlier(a: Pick, b: Pick) -> Pick
    ensures { result ≡ earlier_of a b }
{
    if (b.step != step::NOTHING) & ((a.step == step::NOTHING) | (b.at < a.at)) {
        b
    } else {
        a
    }
}

// One request more that choose considers.
pub fn chosen_step(a: Pick, r: Request, i: usize, x: Asked) -> Pick
    ensures { result ≡ chosen_step a r i x }
{
    earlier(a, picked(x, r, i))
}
