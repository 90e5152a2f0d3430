// Document 01, 'Port': the rules of a lent state, as one test of the port, one of each record, and one of each pair of records.
#![tactic(auto)]

ghost use Rattle.std.specs.Prelude.{◌≡◌};
ghost use Rattle.port_rules.specs.Rules.{phy_rule, port_rule, paired_at, paired, present_rule, request_rule, apart_step, compared_of};
ghost use Rattle.port_rules.specs.Rules as rules;

use open_frame::Head;
use port_parts::{
    CLOSED, NO_SLOT, PROTOCOLS, Phy, Port, Request, SET, SSP, Stamp, YES, phy_stage, request_stage,
};

// A request that is held against those behind it.
#[derive(Clone, Copy)]
pub struct Compared {
    pub head: Head,
    pub loss: Stamp,
    // The first place behind it; 32 if there is nothing to hold it against. No Option: it is where a loop begins, and 32 begins it nowhere.
    pub from: usize,
}

fn names_right(p: Phy) -> bool
    ensures { result ≡ rules.names_right p }
{
    let names = p.slot < NO_SLOT;
    let must = (p.stage == phy_stage::OPENING) | port_parts::has_frame_out(p);
    (p.slot <= NO_SLOT) & ((!must | names) & (!names | (must | (p.stage == phy_stage::CLOSING))))
}

fn phy_rule(count: u8, p: Phy, k: usize) -> bool
    ensures { result ≡ phy_rule count p k }
{
    (p.stage <= phy_stage::CLOSING_SENDING)
        & ((p.protocol < PROTOCOLS)
            & (names_right(p) & ((k < count as usize) | (p.stage == phy_stage::DISABLED))))
}

// The rules that speak of the port alone.
pub fn port_rule(p: Port) -> bool
    ensures { result ≡ port_rule p }
{
    let mut kept = port_parts::in_range(p.count, p.loss);
    for (k, f) in p.phys.iter().enumerate() {
        kept = kept & phy_rule(p.count, *f, k);
    }
    kept
}

// Whether phy k names the request at place i exactly if that is in progress on phy k.
fn paired_at(p: Phy, k: usize, r: Request, i: usize) -> bool
    ensures { result ≡ paired_at p k r i }
{
    let names = p.slot as usize == i;
    let on = (r.stage == request_stage::IN_PROGRESS) & (r.phy as usize == k);
    (!names | on) & (!on | names)
}

fn paired(phys: [Phy; 8], r: Request, i: usize) -> bool
    ensures { result ≡ rules.paired phys r i }
{
    let mut kept = !(r.stage == request_stage::IN_PROGRESS) | (r.phy < 8);
    // Not `all`, which asks at each phy whether to go on: of 32 records this is most of a call's time.
    for (k, p) in phys.iter().enumerate() {
        kept = kept & paired_at(*p, k, r, i);
    }
    kept
}

fn stamps_rule(r: Request, last: u64) -> bool
    ensures { result ≡ rules.stamps_rule r last }
{
    (r.submitted <= last) & ((r.retry.at <= last) & ((r.first.at <= last) & (r.loss.at <= last)))
}

fn flags_rule(r: Request) -> bool
    ensures { result ≡ rules.flags_rule r }
{
    (r.stage <= request_stage::IN_PROGRESS)
        & ((r.cancelled <= YES)
            & ((r.closed <= CLOSED)
                & ((r.retry.set <= SET) & ((r.first.set <= SET) & (r.loss.set <= SET)))))
}

#[tactic(auto, unfolding(crate::specs::Rules::present_rule))]
fn present_rule(r: Request, last: u64) -> bool
    ensures { result ≡ present_rule r last }
{
    let h = r.head;
    let fields = open_frame::head_listed(h);
    flags_rule(r)
        & (fields
            & ((!(r.cancelled == YES) | (r.stage == request_stage::IN_PROGRESS))
                & (stamps_rule(r, last) & ((h.protocol == SSP) | !(r.loss.set == SET)))))
}

// The rules that speak of one record.
#[tactic(auto, unfolding(crate::specs::Rules::request_rule))]
pub fn request_rule(p: Port, r: Request, i: usize) -> bool
    ensures { result ≡ request_rule p r i }
{
    paired(p.phys, r, i) & ((r.stage == request_stage::FREE) | present_rule(r, p.last))
}

// A request at place i, to be held against those behind it.
pub fn compared_of(r: Request, i: usize) -> Compared
    ensures { result ≡ compared_of r i }
{
    let alone = (r.stage == request_stage::FREE) | (32 <= i);
    Compared {
        head: r.head,
        loss: r.loss,
        from: if alone { 32 } else { i + 1 },
    }
}

fn same_timer(s: Stamp, t: Stamp) -> bool
    ensures { result ≡ rules.same_timer s t }
{
    let runs = s.set == SET;
    let other = t.set == SET;
    ((!runs | other) & (!other | runs)) & (!runs | (s.at == t.at))
}

// The rules that speak of two records.
pub fn apart_step(kept: bool, r: Request, i: usize, x: Compared) -> bool
    ensures { result ≡ apart_step kept r i x }
{
    let h = r.head;
    // Most pairs have two destinations, and need no more than this.
    if x.head.destination != h.destination {
        return kept;
    }
    let alike = x.head.protocol == h.protocol;
    let key = alike & (x.head.tag == h.tag);
    let nexus = alike & (h.protocol == SSP);
    kept & ((r.stage == request_stage::FREE) | (!key & (!nexus | same_timer(x.loss, r.loss))))
}
